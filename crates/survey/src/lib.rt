//! What fails together, and which calls would contend (shared risk link groups: RFC 4202, section 2.3).
//!
//! A survey reads the rows of a table, in any order. The law of mesh_laws on two groups that fail says what its lists
//! are good for.
//!
//! - `survey`: its answer is exactly the two lists of the definitions (`hits`, `contends`).
//! - `Hits`: for each SRLG, rising, and then each link that hits a call, the guarded calls and the bare ones, in order.
//! - `Contends`: an entry for each two groups, fibre, label and two different guarded calls that would contend. The
//!   first group hits the one call, the second the other, and both backups take the label.
//! - `Contends::list`: the entries of one first group, in order (`meet_lists`). A list is made when it is asked for,
//!   since all together may be many more than the rows.
//! - `IsLegIndexOf`: the index by LSP has exactly the rows of each LSP, in their order.
//!
//! Tested: `tests/test_survey.py` has groups that hit one call, two and a bare one, and links and an SRLG that contend.
//! In 200 generated networks it fails two groups without a contend, in either order, and no call is busy.
#![tactic(auto)]

ghost use Rattle.std.specs.Prelude.{◌≡◌, IfOk, flat_map};
ghost use Rattle.mesh_laws.specs.Survey.{contends_of, hits_of};

mod contends;
mod groups;
mod hits;
mod index;
pub mod report;
mod slots;
mod views;

use ason_base::{Items, OutOfMemory, TableRows, Topology};
use contends::groups_met;
use groups::groups_of;
use hits::hits_of;
pub use report::{Contends, Hits, Survey};
use slots::shared_slots;
use std::alloc::Global;
use views::views_of;

/// The survey of a network whose calls and legs these rows show.
pub fn survey(alloc: Global, t: &Topology, rows: &TableRows) -> Result<Survey, OutOfMemory>
    ensures hits { IfOk result (λ s. s.hits ≡ hits_of t.now rows.now.calls rows.now.legs) }
    ensures contends { IfOk result
        (λ s. flat_map (λ list. list) s.contends ≡ contends_of t.now rows.now.calls rows.now.legs) }
{
    let links = t.links();
    let groups = groups_of(alloc, t)?;
    let views = views_of(alloc, rows)?;
    let hits = hits_of(alloc, &groups, &views)?;
    let slots = shared_slots(alloc, links, rows.legs.items(), &views)?;
    let met = groups_met(alloc, &groups, &slots)?;
    Ok(Survey {
        hits: Items::from_vec(hits),
        contends: Contends::new(met, slots),
    })
}

//! The rows of banned links.

ghost use Rattle.std.specs.{Prelude.IfOk, BTreeSet.IsFromIterResult};
ghost use Rattle.ason_base.specs.contracts.ids.LinkIdOrd.TheImpl.{ghosts};
ghost use Rattle.route_least.specs.Bans.{AreLinksMarked};

use ason_base::ids::{LinkId, OutOfMemory};
use ason_base::network::TeRow;
use std::alloc::Global;
use std::collections::BTreeSet;

/// For each row whether its link is one of these.
pub(crate) fn rows_of(
    alloc: Global,
    rows: &[TeRow],
    links: &[LinkId],
) -> Result<Vec<bool>, OutOfMemory>
    ensures { IfOk result (λ closed. AreLinksMarked rows.now links.now closed.items) }
{
    let set = link_set(alloc, links)?;
    let mut closed = Vec::with_capacity(alloc, rows.len())?;
    for row in rows {
        closed.push(set.contains(&row.link))?;
    }
    Ok(closed)
}

fn link_set(alloc: Global, links: &[LinkId]) -> Result<BTreeSet<LinkId>, OutOfMemory>
    ensures { IfOk result (IsFromIterResult ghosts.cmp links.now) }
{
    let set: BTreeSet<LinkId> = links.iter().copied().collect(alloc)?;
    Ok(set)
}

//! A Path of a backup that doesn't activate it, where its leg is Armed or Live: the activation is
//! taken back.

ghost use Rattle.std.specs.Prelude.{◌≡◌, IfOk, drop};
ghost use Rattle.mesh_rules.specs.{Activations.taken_back, Legs.is_active_backup};
ghost use Rattle.activation.specs.Answers.{take_back_answer, takes_back, taking_back_here};

use crate::paths::path_on;
use ason_base::{Leg, Msg, NodeId, PathRole, Phase};
use leg_table::changes::Changed;
use leg_table::one_leg::{following, is_in_use, is_over, is_work, previous, with_phase};
use leg_table::{Change, NodeTables};
use mesh_rules::PathRequest;
use mesh_rules::readings::path_request;
use std::alloc::Global;

fn takes_back(role: &PathRole) -> bool
    ensures { result ≡ takes_back role.now }
{
    match role {
        PathRole::Work { .. } => false,
        PathRole::Back { active, .. } => !*active,
    }
}

fn is_active_backup(leg: &Leg) -> bool
    ensures { result ≡ is_active_backup leg.now }
{
    !is_work(leg.role) && is_in_use(leg.phase)
}

// The leg is Held again, and the Path goes on, over the steps that are left; at the egress nothing
// is sent.
fn take_leg_back(alloc: Global, path: &PathRequest<'_>, leg: &Leg) -> Changed
    ensures { IfOk result
        (λ c. c ≡ taken_back leg.now (drop 1 path.now.route) path.now.role) }
{
    let mut change = Change::nothing(alloc);
    change.put(with_phase(alloc, leg, Phase::Held)?)?;
    if let Some(next) = following(leg) {
        let msg = path_on(alloc, leg, next.fibre.link, path.route, path.role)?;
        change.send(next.node, msg)?;
    }
    Ok(change)
}

fn on_path(alloc: Global, tables: &NodeTables, path: &PathRequest<'_>) -> Changed
    ensures { IfOk result (λ c. c ≡ taking_back_here tables.now path.now.arrival
        (drop 1 path.now.route) path.now.role) }
{
    match tables.get(&path.arrival.lsp) {
        Some(leg)
            if takes_back(path.role)
                && is_active_backup(leg)
                && is_over(previous(leg), path.arrival.from, path.arrival.link) => {
            take_leg_back(alloc, path, leg)
        }
        _ => Ok(Change::nothing(alloc)),
    }
}

/// What a Path of a backup that doesn't activate it would change and send at a leg that is Armed or
/// Live: the leg is Held again, and the Path goes on; at the egress nothing is sent. A Path that
/// activates, one at a leg that is neither or of a working LSP, and a message of another kind, do
/// nothing.
pub fn take_back_change(alloc: Global, tables: &NodeTables, from: NodeId, msg: &Msg) -> Changed
    ensures { IfOk result (λ c. c ≡ take_back_answer tables.now from msg.now) }
{
    match path_request(from, msg) {
        None => Ok(Change::nothing(alloc)),
        Some(path) => on_path(alloc, tables, &path),
    }
}

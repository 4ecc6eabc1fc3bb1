//! A PathErr without Path_State_Removed at a leg that is Armed: a label of the backup is in use
//! further on, and the activation is taken back.

ghost use Rattle.std.specs.Prelude.{◌≡◌, IfOk};
ghost use Rattle.mesh_rules.specs.Legs.{find_leg};
ghost use Rattle.activation.specs.Answers.{busy_answer, activation_contended_here, contends, contends_leg, disarmed_here};

use ason_base::{Copied, Leg, Lsp, Msg, NodeId, Phase};
use leg_table::changes::Changed;
use leg_table::one_leg::{begins_here, following, is_armed, is_node, previous, with_phase};
use leg_table::{Change, NodeTables};
use std::alloc::Global;

// The leg is Held again, and the PathErr is passed back; where it begins here nothing is sent.
fn disarm(alloc: Global, leg: &Leg, msg: &Msg) -> Changed
    ensures { IfOk result (λ c. c ≡ disarmed_here leg.now msg.now) }
{
    let mut change = Change::nothing(alloc);
    change.put(with_phase(alloc, leg, Phase::Held)?)?;
    if let Some(back) = previous(leg) {
        change.send(back.node, msg.copy(alloc)?)?;
    }
    Ok(change)
}

fn on_path_err(alloc: Global, tables: &NodeTables, from: NodeId, lsp: Lsp, msg: &Msg) -> Changed
    ensures { IfOk result (λ c. c ≡ activation_contended_here from msg.now (find_leg lsp tables.now.legs)) }
{
    match tables.get(&lsp) {
        Some(leg) if is_node(following(leg), from) && is_armed(leg.phase) => {
            disarm(alloc, leg, msg)
        }
        _ => Ok(Change::nothing(alloc)),
    }
}

fn contends_leg(tables: &NodeTables, from: NodeId, lsp: Lsp) -> bool
    ensures { result ≡ contends_leg from (find_leg lsp tables.now.legs) }
{
    match tables.get(&lsp) {
        None => false,
        Some(leg) => { is_node(following(leg), from) && is_armed(leg.phase) && begins_here(leg) }
    }
}

/// Whether the message is a PathErr without Path_State_Removed that takes back the activation of a
/// backup that begins here: its call follows.
pub fn contends(tables: &NodeTables, from: NodeId, msg: &Msg) -> bool
    ensures { result ≡ contends tables.now from msg.now }
{
    match msg {
        Msg::PathErr { lsp, removed, .. } => !*removed && contends_leg(tables, from, *lsp),
        Msg::Path { .. } | Msg::Resv { .. } | Msg::PathTear { .. } | Msg::Notify { .. } => false,
    }
}

/// What a PathErr without Path_State_Removed would change and send: a leg that is Armed is Held
/// again, and the PathErr goes back unchanged. A PathErr at another leg, one that tells that the
/// state was removed, and a message of another kind, do nothing.
pub fn busy_change(alloc: Global, tables: &NodeTables, from: NodeId, msg: &Msg) -> Changed
    ensures { IfOk result (λ c. c ≡ busy_answer tables.now from msg.now) }
{
    match msg {
        Msg::PathErr { lsp, removed, .. } if !*removed => {
            on_path_err(alloc, tables, from, *lsp, msg)
        }
        _ => Ok(Change::nothing(alloc)),
    }
}

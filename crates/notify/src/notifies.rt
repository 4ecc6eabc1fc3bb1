//! A Notify (RFC 3473, section 4.3): a node of an LSP tells the ingress of its fibre in.

ghost use Rattle.std.specs.Prelude.{◌≡◌, IfOk};
ghost use Rattle.mesh_rules.specs.Legs.{find_leg};
ghost use Rattle.notify.specs.Answers.{pass_answer, notify_passed_back, notify_passed_here, reports, reports_leg, takes_notify};

use ason_base::codes::{FIBRE_DOWN, FIBRE_UP};
use ason_base::{Copied, ErrCode, Leg, Lsp, Msg, NodeId};
use leg_table::changes::Changed;
use leg_table::one_leg::{begins_here, following, is_closing, is_node, previous};
use leg_table::{Change, NodeTables};
use std::alloc::Global;

// Whether the leg takes a Notify of this code from this node: it comes from the next node and tells
// that a fibre went down or came up, and the leg isn't torn.
fn takes_notify(from: NodeId, code: ErrCode, leg: &Leg) -> bool
    ensures { result ≡ takes_notify from code leg.now }
{
    !is_closing(leg.phase)
        && is_node(following(leg), from)
        && (code == FIBRE_DOWN || code == FIBRE_UP)
}

// The Notify goes to the previous node, unchanged; at the ingress there is none.
fn pass_back(alloc: Global, leg: &Leg, msg: &Msg) -> Changed
    ensures { IfOk result (λ c. c ≡ notify_passed_back leg.now msg.now) }
{
    match previous(leg) {
        None => Ok(Change::nothing(alloc)),
        Some(back) => Change::sends(alloc, back.node, msg.copy(alloc)?),
    }
}

fn on_notify(
    alloc: Global,
    tables: &NodeTables,
    from: NodeId,
    lsp: Lsp,
    code: ErrCode,
    msg: &Msg,
) -> Changed
    ensures { IfOk result
        (λ c. c ≡ notify_passed_here from code msg.now (find_leg lsp tables.now.legs)) }
{
    match tables.get(&lsp) {
        Some(leg) if takes_notify(from, code, leg) => pass_back(alloc, leg, msg),
        _ => Ok(Change::nothing(alloc)),
    }
}

fn reports_leg(tables: &NodeTables, from: NodeId, lsp: Lsp, code: ErrCode) -> bool
    ensures { result ≡ reports_leg from code (find_leg lsp tables.now.legs) }
{
    match tables.get(&lsp) {
        None => false,
        Some(leg) => takes_notify(from, code, leg) && begins_here(leg),
    }
}

/// Whether the message is a Notify of a fibre that went down or came up, and a leg takes it whose
/// LSP begins here: its call follows.
pub fn reports(tables: &NodeTables, from: NodeId, msg: &Msg) -> bool
    ensures { result ≡ reports tables.now from msg.now }
{
    match msg {
        Msg::Notify { lsp, code, .. } => reports_leg(tables, from, *lsp, *code),
        Msg::Path { .. } | Msg::Resv { .. } | Msg::PathTear { .. } | Msg::PathErr { .. } => false,
    }
}

/// What a Notify would send away from the ingress: it goes to the previous node, unchanged, where
/// it came from the next node of a leg that isn't torn, and tells that a fibre went down or came
/// up. Another Notify, one at the ingress, and a message of another kind, do nothing.
pub fn pass_change(alloc: Global, tables: &NodeTables, from: NodeId, msg: &Msg) -> Changed
    ensures { IfOk result (λ c. c ≡ pass_answer tables.now from msg.now) }
{
    match msg {
        Msg::Notify { lsp, code, .. } => on_notify(alloc, tables, from, *lsp, *code, msg),
        Msg::Path { .. } | Msg::Resv { .. } | Msg::PathTear { .. } | Msg::PathErr { .. } => {
            Ok(Change::nothing(alloc))
        }
    }
}

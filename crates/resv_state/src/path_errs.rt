//! A PathErr with Path_State_Removed (RFC 3473, section 4.4).

ghost use Rattle.std.specs.Prelude.{◌≡◌, IfOk};
ghost use Rattle.resv_state.specs.Answers.{err_here, err_passed_here, path_err_answer, path_failure, refuses, refuses_by, removed_here};

use ason_base::{Copied, ErrCode, Leg, Lsp, Msg, NodeId};
use leg_table::changes::Changed;
use leg_table::one_leg::{begins_here, following, is_asked, is_closing, is_node, previous};
use leg_table::{Change, NodeTables};
use std::alloc::Global;
use std::marker::Model;

/// A PathErr of an LSP: the message, whether it removes the leg, and why it came.
#[derive(Drop)]
struct PathFailure<'a> {
    lsp: Lsp,
    msg: &'a Msg,
    removed: bool,
    code: ErrCode,
}

impl<'a> Model for PathFailure<'a> {
    ghost use Rattle.mesh_rules.specs.PathErrs as path_errs;

    ghost Value = { path_errs.PathFailure };

    ghost view = { λ e. record {
      lsp = e.lsp;
      msg = e.msg.now;
      removed = e.removed;
      code = e.code;
    } };
}

// What a PathErr says; a message of another kind says nothing of it.
fn path_failure<'a>(msg: &'a Msg) -> Option<PathFailure<'a>>
    ensures { result ≡ path_failure msg.now }
{
    match msg {
        Msg::PathErr {
            lsp,
            removed,
            code,
            ..
        } => Some(PathFailure {
            lsp: *lsp,
            msg,
            removed: *removed,
            code: *code,
        }),
        _ => None,
    }
}

fn pass_err(alloc: Global, leg: &Leg, failure: &PathFailure<'_>) -> Changed
    ensures { IfOk result (λ c. c ≡ err_passed_here leg.now failure.now) }
{
    match previous(leg) {
        None => {
            let mut change = Change::nothing(alloc);
            change.remove(leg.lsp)?;
            Ok(change)
        }
        Some(back) => Change::removes(alloc, leg.lsp, back.node, failure.msg.copy(alloc)?),
    }
}

fn remove(alloc: Global, leg: &Leg, failure: &PathFailure<'_>) -> Changed
    ensures { IfOk result (λ c. c ≡ removed_here leg.now failure.now) }
{
    if is_asked(leg.phase) {
        return pass_err(alloc, leg, failure);
    }
    let mut change = Change::nothing(alloc);
    if is_closing(leg.phase) {
        change.remove(leg.lsp)?;
    }
    Ok(change)
}

fn on_path_err(
    alloc: Global,
    tables: &NodeTables,
    from: NodeId,
    failure: &PathFailure<'_>,
) -> Changed
    ensures { IfOk result (λ c. c ≡ err_here tables.now from failure.now) }
{
    match tables.get(&failure.lsp) {
        Some(leg) if failure.removed && is_node(following(leg), from) => {
            remove(alloc, leg, failure)
        }
        _ => Ok(Change::nothing(alloc)),
    }
}

fn refuses_leg(tables: &NodeTables, from: NodeId, failure: &PathFailure<'_>) -> bool
    ensures { result ≡ refuses_by tables.now from failure.now }
{
    match tables.get(&failure.lsp) {
        None => false,
        Some(leg) => {
            failure.removed
                && is_node(following(leg), from)
                && is_asked(leg.phase)
                && begins_here(leg)
        }
    }
}

/// Whether the message is a PathErr that takes the Asked leg of an LSP away that begins here: its
/// call follows.
pub fn refuses(tables: &NodeTables, from: NodeId, msg: &Msg) -> bool
    ensures { result ≡ refuses tables.now from msg.now }
{
    match path_failure(msg) {
        None => false,
        Some(failure) => refuses_leg(tables, from, &failure),
    }
}

/// What a PathErr would change and send: one that tells that the state was removed takes an Asked
/// or a torn leg away. A message of another kind does nothing.
pub fn path_err_change(alloc: Global, tables: &NodeTables, from: NodeId, msg: &Msg) -> Changed
    ensures { IfOk result (λ c. c ≡ path_err_answer tables.now from msg.now) }
{
    match path_failure(msg) {
        None => Ok(Change::nothing(alloc)),
        Some(failure) => on_path_err(alloc, tables, from, &failure),
    }
}

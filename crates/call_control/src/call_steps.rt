//! What becomes of a call after a Resv or a PathErr at its ingress (ITU-T G.8080, call control).

ghost use Rattle.std.specs.{Prelude.{◌≡◌, OnOk}, Option.option_copied};
ghost use Rattle.mesh_rules.specs.Changes.{followed_by};
ghost use Rattle.mesh_nodes.specs.LocalNodes.{LocalNodeFits};
ghost use Rattle.leg_table.specs.{LegClaims.AreOfOneNode, States.local_of};
ghost use Rattle.call_control.specs.{Rules.{answered_here, refused_as, call_refused_here}, Searches.{IsBackupFor, RowsAreKnown, is_paired_by_resv, sought_by_resv}};

use crate::call_states::{bare, blocked, guarded, has_no_backup, is_asking};
use crate::{IngressParts, PairRequest, decide, leave_bare, pair};
use ason_base::{CallRec, CallState, Cause, Copied, ErrCode, Leg, Lsp, OutOfMemory, Role, Steps};
use leg_table::one_leg::is_work;
use leg_table::{Calls, Change, NodeTables};
use share_check::Shares;
use std::alloc::Global;

// A Resv

fn is_paired_by_resv(call: &CallRec, leg: &Leg) -> bool
    ensures { result ≡ is_paired_by_resv call.now leg.now }
{
    is_work(leg.role) && is_asking(call.state) && call.protected
}

/// The leg beside whose LSP a backup route is to be searched for where this leg, which begins here,
/// has its labels now: itself, of a protected call that was asked for and was given no backup
/// route.
pub fn sought_by_resv<'a>(calls: &Calls, leg: &'a Leg) -> Option<&'a Leg>
    ensures { option_copied result ≡ sought_by_resv calls.now leg.now }
{
    match calls.with_lsp(leg.lsp) {
        Some(call) if is_paired_by_resv(call, leg) && has_no_backup(call) => Some(leg),
        _ => None,
    }
}

/// What becomes of the call of this leg, which begins here and has its labels now: a call that was
/// asked for stands, and a backup is asked for if it is to be protected; a call whose backup was
/// asked for is guarded, and may turn at once. The backup route is the least one that is found
/// where one is sought.
pub fn answer_resv(
    alloc: Global,
    change: &mut Change,
    parts: &IngressParts<'_>,
    shares: &Shares,
    leg: &Leg,
    backup: Option<&Steps>,
) -> Result<(), OutOfMemory>
    requires links { LocalNodeFits (local_of parts.now.tables.now) }
    requires rows { RowsAreKnown parts.now.tables.now }
    requires node { AreOfOneNode parts.now.tables.now parts.now.owner.now shares.now }
    requires backup { IsBackupFor parts.now.tables.now
        (sought_by_resv parts.now.calls.now leg.now) (option_copied backup) }
    ensures { OnOk result (change.new ≡ followed_by change.old
        (answered_here parts.now.tables.now parts.now.calls.now leg.now)) }
{
    let Some(call) = parts.calls.with_lsp(leg.lsp) else {
        return Ok(());
    };
    if is_paired_by_resv(call, leg) {
        let request = PairRequest {
            call,
            work: leg,
            found: backup,
        };
        return pair(alloc, change, parts, shares, &request);
    }
    match (leg.role, call.state) {
        (Role::Work, CallState::Asking) => change.put_call(bare(call.copy(alloc)?)),
        (Role::Back, CallState::Pairing) => {
            decide(alloc, change, parts, guarded(call.copy(alloc)?), Some(leg))
        }
        _ => Ok(()),
    }
}

// A PathErr

/// What becomes of the call, whose LSP of this role is refused with this code.
pub fn refuse_as(
    alloc: Global,
    change: &mut Change,
    call: &CallRec,
    role: Role,
    code: ErrCode,
) -> Result<(), OutOfMemory>
    ensures { OnOk result
        (change.new ≡ followed_by change.old (refused_as code role call.now)) }
{
    let cause = Cause::Code(code);
    match (role, call.state) {
        (Role::Work, CallState::Asking) => {
            change.put_call(blocked(alloc, call.copy(alloc)?, cause))
        },
        (Role::Back, CallState::Pairing) => leave_bare(alloc, change, call, cause),
        _ => Ok(()),
    }
}

/// What becomes of the call of this LSP, which begins here and is refused with this code: a call
/// that was asked for is blocked, and one whose backup was asked for stands without it.
pub fn refuse_lsp(
    alloc: Global,
    change: &mut Change,
    tables: &NodeTables,
    calls: &Calls,
    lsp: Lsp,
    code: ErrCode,
) -> Result<(), OutOfMemory>
    ensures { OnOk result
        (change.new ≡ followed_by change.old (call_refused_here tables.now calls.now lsp code)) }
{
    let (Some(call), Some(leg)) = (calls.with_lsp(lsp), tables.get(&lsp)) else {
        return Ok(());
    };
    refuse_as(alloc, change, call, leg.role, code)
}

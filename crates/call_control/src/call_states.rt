//! The states of a call.

ghost use Rattle.std.specs.Prelude.{◌≡◌};
ghost use Rattle.mesh_rules.specs.Calls.{bare, blocked, guarded, is_asking, is_bare, is_stuck, is_turned, is_turning, pairing, stuck, turned, turning, unbacked};
ghost use Rattle.call_control.specs.Searches.{has_no_backup};

use ason_base::{CallRec, CallState, Cause, Fibres, Lsp};
use std::alloc::Global;

/// Whether its working LSP is asked for.
pub fn is_asking(state: CallState) -> bool
    ensures { result ≡ is_asking state }
{
    matches!(state, CallState::Asking)
}

/// Whether it stands without a backup.
pub fn is_bare(state: CallState) -> bool
    ensures { result ≡ is_bare state }
{
    matches!(state, CallState::Bare)
}

/// Whether its backup is being activated.
pub fn is_turning(state: CallState) -> bool
    ensures { result ≡ is_turning state }
{
    matches!(state, CallState::Turning)
}

/// Whether its backup carries the call.
pub fn is_turned(state: CallState) -> bool
    ensures { result ≡ is_turned state }
{
    matches!(state, CallState::Turned)
}

/// Whether its backup can't be activated.
pub fn is_stuck(state: CallState) -> bool
    ensures { result ≡ is_stuck state }
{
    matches!(state, CallState::Stuck)
}

// The call in this state for this cause.
fn in_state(mut call: CallRec, state: CallState, cause: Cause) -> CallRec
    ensures { result ≡ record call { state = state; cause = cause; ticks = 0 } }
{
    call.state = state;
    call.cause = cause;
    call.ticks = 0;
    call
}

/// The call, without its working LSP and with the cause of that.
pub fn blocked(alloc: Global, mut call: CallRec, cause: Cause) -> CallRec
    ensures { result ≡ blocked call cause }
{
    call.work = None;
    call.work_reports = Fibres::new(alloc);
    in_state(call, CallState::Blocked, cause)
}

/// The call, whose working LSP stands, without a backup.
pub fn bare(call: CallRec) -> CallRec
    ensures { result ≡ bare call }
{
    in_state(call, CallState::Bare, Cause::Unset)
}

/// The call, which got no backup for this cause.
pub fn unbacked(alloc: Global, mut call: CallRec, cause: Cause) -> CallRec
    ensures { result ≡ unbacked call cause }
{
    call.back = None;
    call.back_reports = Fibres::new(alloc);
    in_state(call, CallState::Bare, cause)
}

/// The call, whose backup is this LSP and is asked for.
pub fn pairing(alloc: Global, mut call: CallRec, back: Lsp) -> CallRec
    ensures { result ≡ pairing call back }
{
    call.back = Some(back);
    call.back_reports = Fibres::new(alloc);
    in_state(call, CallState::Pairing, Cause::Unset)
}

/// The call, whose backup is reserved.
pub fn guarded(call: CallRec) -> CallRec
    ensures { result ≡ guarded call }
{
    in_state(call, CallState::Guarded, Cause::Unset)
}

/// The call, whose backup is being activated.
pub fn turning(call: CallRec) -> CallRec
    ensures { result ≡ turning call }
{
    in_state(call, CallState::Turning, Cause::Unset)
}

/// The call, which its backup carries.
pub fn turned(call: CallRec) -> CallRec
    ensures { result ≡ turned call }
{
    in_state(call, CallState::Turned, Cause::Unset)
}

/// The call, whose backup can't be activated for this cause.
pub fn stuck(call: CallRec, cause: Cause) -> CallRec
    ensures { result ≡ stuck call cause }
{
    in_state(call, CallState::Stuck, cause)
}

/// Whether the call was given no backup route.
pub fn has_no_backup(call: &CallRec) -> bool
    ensures { result ≡ has_no_backup call.now }
{
    call.backup.is_none()
}

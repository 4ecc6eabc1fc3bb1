//! Ticks: a turned call whose working LSP isn't hit waits to be restored, and goes back at the end
//! of the wait (ITU-T G.808.1, wait to restore).

ghost use Rattle.std.specs.Prelude.{◌≡◌, IfOk, OnOk};
ghost use Rattle.mesh_rules.specs.{Changes.followed_by, Waits.call_ticked};
ghost use Rattle.call_control.specs.Reverts.{is_waiting, tick_answer};

use crate::call_states::is_turned;
use crate::leg_of;
use crate::turns::{go_back, has_any};
use ason_base::{CallRec, Copied, OutOfMemory};
use leg_table::changes::Changed;
use leg_table::{Calls, Change, NodeTables};
use std::alloc::Global;

// Whether the call waits to be restored after so many ticks; after 0 none does.
fn is_waiting(wait: u32, call: &CallRec) -> bool
    ensures { result ≡ is_waiting wait call.now }
{
    wait != 0 && is_turned(call.state) && !has_any(&call.work_reports)
}

// One tick more for this call.
fn tick_call(
    alloc: Global,
    change: &mut Change,
    tables: &NodeTables,
    call: &CallRec,
) -> Result<(), OutOfMemory>
    ensures { OnOk result (change.new
        ≡ followed_by change.old (call_ticked tables.now.wait tables.now.legs call.now)) }
{
    let wait = tables.wait();
    if !is_waiting(wait, call) {
        return Ok(());
    }
    let mut call = call.copy(alloc)?;
    if wait - 1 <= call.ticks {
        let back = leg_of(tables, call.back);
        return go_back(alloc, change, call, back);
    }
    call.ticks += 1;
    change.put_call(call)
}

/// What a tick does: the calls that wait count it, in order of number, and go back where that is
/// the last one of the wait. Where the network has no wait none is looked at.
pub fn tick_change(alloc: Global, tables: &NodeTables, calls: &Calls) -> Changed
    ensures { IfOk result (λ c. c ≡ tick_answer tables.now calls.now) }
{
    let mut change = Change::nothing(alloc);
    if tables.wait() == 0 {
        return Ok(change);
    }
    for call in calls.calls() {
        tick_call(alloc, &mut change, tables, call)?;
    }
    Ok(change)
}

//! Calls in order of number, found by halving.

ghost use Rattle.std.specs.{Prelude.{◌≡◌, ◌≤◌, ◌<◌, length, vec_capacity, vec_len}, Option.option_copied};
ghost use Rattle.mesh_rules.specs.Calls.{find_call, without_call};
ghost use Rattle.leg_table.specs.CallTables.{AreCallsRising};

use crate::keyed::{find_item, take_item};
use ason_base::{CallNo, CallRec};
use std::alloc::Global;

fn number_of(call: &CallRec) -> u16
    ensures number { result ≡ call.now.call.0 }
    ensures small { call.now.call.0 < 65536 }
{
    call.call.0
}

/// How many calls these are: at most 65,536, since no number is that of two.
pub(crate) fn count(calls: &[CallRec]) -> usize
    requires { AreCallsRising calls.now }
    ensures count { result ≡ length calls.now }
    ensures few { length calls.now ≤ 65536 }
{
    let count = calls.len();
    if count > 0 {
        let _last = number_of(&calls[count - 1]);
    }
    count
}

pub(crate) fn find_call(calls: &[CallRec], number: CallNo) -> Option<&CallRec>
    requires { AreCallsRising calls.now }
    ensures { option_copied result ≡ find_call number calls.now }
{
    find_item(calls, number)
}

pub(crate) fn take_call(calls: &mut Vec<CallRec>, number: CallNo) -> Option<CallRec>
    requires { AreCallsRising calls.old.items }
    ensures call { result ≡ find_call number calls.old.items }
    ensures left { calls.new.items ≡ without_call number calls.old.items }
    ensures rising { AreCallsRising calls.new.items }
    ensures len { vec_len calls.new ≤ vec_len calls.old }
    ensures capacity { vec_capacity calls.new ≡ vec_capacity calls.old }
{
    take_item(calls, number)
}

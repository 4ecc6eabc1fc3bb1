//! Calls in order of number.

ghost use Rattle.mesh_rules.specs.Calls.{earlier_call, same_call};
ghost use Rattle.leg_table.specs.CallNumbers.{call_order};

use crate::keyed::Keyed;
use ason_base::{CallNo, CallRec};

impl Keyed for CallRec {
    type Key = CallNo;

    ghost key_of = { λ c. c.call };

    ghost same = { same_call };

    ghost before = { earlier_call };

    fn key(&self) -> CallNo {
        self.call
    }

    fn is_same(a: CallNo, b: CallNo) -> bool {
        a == b
    }

    fn is_before(a: CallNo, b: CallNo) -> bool {
        a < b
    }

    ghost order = { call_order };
}

//! Fibres that go down and come up again, and what the ingress of each LSP is told of it (RFC 3473, section 4.3).
//!
//! Each answer is exactly that of the rule at a node of these tables that has no call. Nothing changes yet.
//!
//! - `alarm_change`: the answer to an alarm (`alarm_answer`). The fibre is known to be down, and the previous node of
//!   each untorn leg that it leads to gets a Notify, in order of LSP. Nothing happens if the fibre doesn't come in here
//!   or is known to be down.
//! - `clear_change`: the same for a clear of a fibre that is known to be down (`clear_answer`). A clear of any other
//!   fibre does nothing.
//! - `pass_change`: the answer to a Notify away from the ingress (`pass_answer`). It goes to the previous node
//!   unchanged, if it came from the next node of an untorn leg and tells that a fibre went down or came up.
//! - `reports`: whether such a Notify reaches the ingress of its LSP. Then the call follows, in call_control.
//!
//! Tested: `tests/test_calls.py` has an alarm and a clear at each node of a backup, and the Notifies that its nodes
//! pass back.
#![tactic(auto)]

mod alarms;
mod notifies;

pub use alarms::{alarm_change, clear_change};
pub use notifies::{pass_change, reports};

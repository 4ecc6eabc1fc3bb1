//! The activation of a backup along its route (RFC 4872, section 8), and taking it back (reversion: RFC 4427).
//!
//! Each answer is that of the rule at a node of these tables that has no call. What follows for the call at the ingress
//! is in call_control. Nothing changes yet.
//!
//! - `activate_change`: the answer to a Path that activates a Held leg (`activate_answer`). The leg is Armed and the
//!   Path goes on. At the egress the leg is Live and a Resv goes back.
//! - `busy_here`: if another backup is activated on a label that the leg takes or sends, a PathErr without
//!   Path_State_Removed goes back. The leg stays as it is.
//! - `activate_change` asks that the owner's claims and marks are those of the legs.
//! - `take_back_change`: the answer to a Path that doesn't activate, at a backup's leg that is Armed or Live
//!   (`take_back_answer`). The leg is Held again and the Path goes on.
//! - `connect_change`: the answer to a Resv at an Armed leg (`connect_answer`). The leg is Live and the Resv goes back.
//! - `busy_change`: the answer to a PathErr without Path_State_Removed at an Armed leg (`busy_answer`). The leg is Held
//!   again and the PathErr goes back unchanged.
//! - `carries`: whether the Resv tells that a backup which begins here is activated. Then the call follows.
//! - `contends`: whether the PathErr tells that a backup which begins here can't be activated. Then the call follows.
//!
//! Tested: `tests/test_calls.py` has a backup that is activated node by node, and one that is taken back from Live.
//! `tests/test_labels.py` has one that is refused since another one sends its label, and node_tests one that is taken
//! back from Armed.
#![tactic(auto)]

mod path_errs;
mod paths;
mod resvs;
mod taken_back;

pub use path_errs::{busy_change, contends};
pub use paths::activate_change;
pub use resvs::{carries, connect_change};
pub use taken_back::take_back_change;

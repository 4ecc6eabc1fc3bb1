//! What a Resv and a PathErr with Path_State_Removed change of the legs of a node (RFC 2205, section 3.1.4; RFC 3473,
//! sections 2 and 4.4).
//!
//! Each answer is that of the rule at a node of these tables that has no call. What follows for the call at the ingress
//! is in call_control. Nothing changes yet.
//!
//! - `resv_change`: exactly the answer of the rule (`resv_answer`). An Asked leg takes the Resv from its next node,
//!   with a label that was sent on. The leg gets its labels, and away from the ingress the Resv goes back.
//! - `left_here`: the labels that may go back are those that were offered and are usable now. If none of them fits, the
//!   LSP is torn towards the egress and a PathErr goes to the previous node.
//! - `resv_change` asks that the tables, the owner of the labels and the shares of the backups fit each other.
//! - `path_err_change`: exactly the answer of the rule (`path_err_answer`). A PathErr from the leg's next node takes an
//!   Asked leg away, and away from the ingress it is passed back unchanged. It takes a torn leg away too.
//! - `connects`: whether the Resv gives a leg its label and the LSP begins here. Then the call follows.
//! - `refuses`: whether the PathErr takes an Asked leg away and the LSP begins here. Then the call follows.
//!
//! Tested: node_tests has Resvs that no leg takes: of another node, with a label that wasn't sent on, and at a leg that
//! has its label. It also has PathErrs that take no leg away. `tests/test_labels.py` has the labels that go back.
#![tactic(auto)]

mod path_errs;
mod resvs;

pub use path_errs::{path_err_change, refuses};
pub use resvs::{connects, resv_change};

//! What a Path of an LSP that has no leg, and a PathTear, change at a node (RFC 2205, sections 3.1.3 and 3.1.5; RFC
//! 3473, section 2).
//!
//! Each function reads the node's tables, and for a Path also the owner of its labels and the shares of its backups. It
//! tells what would change and what would be sent. Nothing changes yet.
//!
//! - `path_change`: exactly the answer of the rule (`path_answer`). The Path makes a leg and goes on, ends here and is
//!   answered, or is refused. If its LSP has a leg, nothing changes.
//! - `path_change` asks that the tables, the owner and the shares fit each other.
//! - `judged_here`: the first check that fails gives the code of the refusal. The checks are those of the definition,
//!   in its order.
//! - `offered_here`: a leg is offered the labels of the Path's set that are usable on the fibre by which the Path came.
//! - `path_back_here`: the label that a two-way LSP gets for its way back, if the Path goes on from here and asks for
//!   one.
//! - `recorded_here`: the leg of a backup records the risks of its primary route, over the rows that the node knows.
//! - `tear_change`: exactly the answer of the rule (`tear_answer`). The PathTear is confirmed and goes on, and the leg
//!   waits for the next node's answer. At the egress the leg goes at once.
//!
//! Tested: node_tests has the refusals that no run reaches, a Path of an LSP that has a leg, and PathTears.
//! `tests/test_labels.py` has the labels that legs take there and back, and `tests/test_calls.py` refusals and a torn
//! leg.
#![tactic(auto)]

mod paths;
mod tears;

pub use paths::path_change;
pub use tears::tear_change;

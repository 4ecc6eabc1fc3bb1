//! The labels that a node's legs take and use: which a leg may take, and whether one may be activated.
//!
//! - `usable`: the labels of a fibre that a leg of this role may take, if its primary has these risks. For a working
//!   leg they are those that no leg has. For a backup they are also those that only backups have whose primaries have
//!   none of the risks. It asks that the tables, the owner and the shares are of one node (`node`), and that the fibre
//!   comes in there (`comes_in`).
//! - `label_through`: with which of these labels an LSP goes on. It is the least at a node that converts. At another
//!   node it is the label that came.
//! - `is_contended`: whether a marked leg of another LSP uses a label that the leg uses, be it one that it takes or one
//!   that it sends. It asks that the claims and the marks are those of the legs (`claims`). The leg itself may be there
//!   or not.
//! - `usable` and `is_contended` look at no leg. The owner and the shares tell.
//! - `OwnContention`: the lemma that a leg's own LSP doesn't contend it.
//!
//! Tested: node_tests give inputs to nodes by hand.
#![tactic(auto)]

mod marks;
mod usable_labels;

pub use usable_labels::{is_contended, label_through, usable};

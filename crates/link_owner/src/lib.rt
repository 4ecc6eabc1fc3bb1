//! Who has which label of a node's fibres, and whose backup is activated on it (RFC 4872, section 8: shared backups).
//!
//! On the fibres that come in, working legs claim their labels, backups hold theirs, and both free them. A backup that
//! is activated sets its mark on each label that it uses, also on those that it only sends. It clears the mark when
//! that is taken back or refused.
//!
//! - `Owner::new`: just the fibres to the node come in (`fibres`), and just those to it or from it have marks
//!   (`marked`). No label is claimed (`value`), and none has a mark (`dark`). A number that no node has gives an owner
//!   without fibres.
//! - `Owner::claim`, for a working leg: with Ok the claim is added (`ok`) and no leg had the label (`free`). `Held`
//!   names the least LSP that has it (`fault`).
//! - `Owner::hold`, for a backup leg: with Ok no working leg had the label (`shareable`). `Held` names the working LSP
//!   that has it (`fault`).
//! - Neither changes anything after an error (`err`), and out of memory comes only when the label was to be had. Both
//!   ask that the fibre comes in here (`comes_in`) and has the label (`label`), and that the LSP has no claim of it
//!   (`new`).
//! - `Owner::unclaimed`, `Owner::shareable`: the fibre's labels that no leg has, and those that no working leg has.
//! - `Owner::lit`: the LSP whose mark is on the label. A fibre that isn't the node's has none.
//! - `Owner::arm`: with Ok the label has the LSP's mark and all else is as it was (`ok`). No other LSP's mark was there
//!   (`free`). `Busy` names the other LSP whose mark is there (`busy`, `other`), and nothing has changed (`err`).
//! - `Owner::disarm`: the mark is cleared if it is the LSP's, and all else is as it was (`DarkensJust`). `arm` and
//!   `disarm` ask that the fibre is one of the node's (`there`), and they leave the claims as they are.
//! - The invariant: two masks of a fibre are exactly what its claims leave free (`AreFree`). A mark takes no memory.
//!
//! Tested: node_tests give inputs to nodes by hand. `tests/test_labels.py` has labels that legs take and give up.
#![tactic(auto)]

mod claims;
mod fibres;
mod free_labels;
mod marks;
mod owner;

pub use claims::{Claim, ClaimFault, ClaimKind};
pub use marks::Busy;
pub use owner::Owner;

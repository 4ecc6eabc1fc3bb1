//! Carrying out what a rule changes of a node's legs and calls, with the owner's labels and the guards of the shares.
//!
//! - `carry_out`: what the node keeps changes as the rule's answer says, and what the answer sends is handed back, in
//!   order. The node and its links stay. Out of memory nothing has changed.
//! - `carry_out_tables`: the same of legs and rows only (`ok`, `err`, `err_owner`, `err_shares`). The claims, the marks
//!   and the guards follow the legs (`node`).
//! - Both ask that the tables, the owner and the shares are of one node (`node`), and that at most 4,096 legs are there
//!   afterwards (`few`). Only the last change may take a label more than its LSP's leg does, and one that is usable
//!   (`may`).
//! - A leg that is put may be marked only in two cases (`marks`). Either its LSP's leg was marked and used those
//!   labels. Or they are of the node's fibres, and no marked leg of another LSP uses them.
//! - All that can run out of memory comes first: room for the calls, the row and the legs, and the new label with its
//!   guarded risks. What follows is never refused.
//! - `Hold`: what an LSP has on a label, as one function of LSP, fibre and label. Claims and guards fit it after each
//!   step.
//! - `MessageChanges` and `RuleChanges` are the lemmas that the rules' crates share: what a rule answers may be carried
//!   out so (`FineLegs`). `CallLegs` and `CallOrders` say so of what a call does after a first change.
//!
//! Tested: node_tests give inputs to nodes by hand.
#![tactic(auto)]

mod carrying;
mod marking;
mod releasing;
mod reserving;

pub use carrying::{carry_out, carry_out_tables};

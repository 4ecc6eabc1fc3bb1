//! One node of an optical network: its connection and call controllers over its tables (ITU-T G.8080).
//!
//! The crate finds the rule that an input has, searches for the routes that a rule needs, and carries out the answer.
//!
//! - The invariant of `Node`: it knows its own links, keeps what fits them, and begins at most 65,536 calls. Routes can
//!   be asked of the rows that it knows. The law `Node::fits` says so.
//! - The claims and marks of its owner and the guards of its shares are exactly those of its legs.
//! - `Node::new`: a node with empty tables. A number that no node has gives a node without links.
//! - `Node::answer`: what the rule of an input would change and send (`answer`). It goes only to neighbours (`near`)
//!   and is at most 65,536 messages (`few`). It can be written if a message that came can be passed on (`written`).
//! - `Node::carry_out`: carries out an answer to an input that may come (`ok`), and hands back what is sent (`sent`).
//!   Out of memory it leaves the node unchanged (`err`). `Node::carry_out_rest` does so without the messages.
//! - `Node::step`: both in one. Any message, item of the work queue (desk) and tick may come, but only rows that may be
//!   learnt.
//! - `Node::counts_ticks`: if it is false, a tick changes and sends nothing. `Node::forget` takes back the row that was
//!   learnt last.
//! - `least_route`: a setup without a given route gets the least over the known rows, and none exactly if there is
//!   none.
//! - `least_backup`: a backup that no setup gave goes over the least route beside the working one. There is none if a
//!   link of that one isn't known.
//! - `Node::rows`: calls in order of number and legs in order of LSP, as the table shows them.
//!
//! Tested: node_tests has inputs that no run brings, a node of 4,096 legs and an ingress that has spent its 65,535
//! LSPs. `tests/test_labels.py`, `tests/test_calls.py` and `tests/test_replays.py` have labels, calls, and routes over
//! learnt links.
#![tactic(auto)]

mod messages;
pub mod node;
mod routes;
mod rows;
mod rules;

pub use leg_table::Change;
pub use mesh_nodes::Input;
pub use node::Node;

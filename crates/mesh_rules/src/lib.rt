//! The rules of the mesh: what a controller keeps of LSPs and calls, what each input does to it, and runs of events.
//!
//! The definitions are in specs/, a file for each rule. Here are the types that they speak of, and functions that
//! compute a few of the definitions. The crate has no code of a rule.
//!
//! - `on_message`, `on_item`, `on_tick`, `on_row`: the answer to a message, an item of the work queue (desk), a tick
//!   and a row of a link. Each is a function of the node's place, its state and the input.
//! - `Answer`, `followed_by`, `changed`: what an answer is, one answer after another, and what a node keeps after it.
//! - `is_enabled`, `step`, `IsRun`: which events may come, what each does, and runs of them.
//! - `asks_for`: the one definition by which an ingress asks for an LSP, whether that carries a call or guards one.
//! - `is_valid`: whether a command's nodes, groups and routes fit the topology.
//! - `is_again`: whether a command is a setup of a number that was posted before.
//! - `failed_after`, `is_cut`: the groups that have failed after a command, and whether a risk of the link is among
//!   them.
//! - `news_of`: the alarm or the clear that a node gets of a link when other groups have failed than before, if any.
//! - Law `constants::limits`: a node keeps at most 4,096 legs, a route has at most 63 links, and the last LSP number is
//!   65,535.
//!
//! Tested: nothing of its own.
//!
//! Neither proved nor tested: that the rules make a good network in more than the laws of mesh_laws say.
#![tactic(auto)]

pub mod arrivals;
pub mod changes;
pub mod commands;
pub mod constants;
pub mod events;
pub mod failures;
pub mod limits;
pub mod links;
pub mod neighbours;
pub mod readings;
pub mod requests;
pub mod roles;

pub use arrivals::{Arrival, GivenLabel};
pub use changes::{CallChange, LegChange, NextNumbers};
pub use events::MeshEvent;
pub use neighbours::Neighbour;
pub use requests::PathRequest;

//! Generated plans: a network and a script of calls drawn from a seed, and the lines that count calls by their state.
//!
//! - `load_parts`: the plan that is drawn from a seed, and three further parts of its script (`exact`, by
//!   `load_parts_of`). Conditions: 4 to 64 nodes (`least`, `most`), an even number (`even`), and 1 to 4,096 calls.
//! - The network is a ring, with a chord from each node of the first half to the one opposite. It is a topology
//!   (`valid`). Each call is protected and goes to another node, and each node and each call has its name (`named`).
//! - Numbers come from a linear congruential generator over 64 bits, of which the upper 31 are taken (`drawn`).
//! - The plan's lines set all calls up and can be posted one after the other (`built`). The further parts can be posted
//!   whatever calls were set up before (`failed`, `repaired`, `reverted`). If a link has SRLG 1 they fail it and repair
//!   it, and wait until the calls are back.
//! - `phase_text`: the line that tells after a part how many calls are in each state, byte by byte.
//!
//! Tested over the built program by `tests/test_loads.py`.
#![tactic(auto)]

mod draws;
mod names;
mod network;
pub mod parts;
pub mod phases;
mod setups;

pub use parts::{LoadParts, load_parts};
pub use phases::{LoadPhase, phase_text};

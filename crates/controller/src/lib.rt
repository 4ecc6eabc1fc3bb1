//! The controller of one node: the node, a reliable hop to each neighbour, the flooding of links, and their codec.
//!
//! It takes frames and sends frames. A frame bears a packet of a hop or a flood message, and all other bytes are
//! malformed.
//!
//! - `Controller::new`: a controller that keeps nothing and made no step, at a node of the topology. The rows of its
//!   own links are due to each neighbour.
//! - `Controller::step`: takes a frame, an item of the work queue (desk) or a tick. The node, its hops and its flood
//!   are then exactly what the definition in control_channels says, and exactly its frames go out, in order (`step`).
//! - A frame is acknowledged first, and then go the messages of the node's rule, or a new row to the other neighbours.
//!   At a tick messages go again, then rows, then what the rule sends. Malformed bytes change and send nothing.
//! - The bytes of a frame have at most one meaning (`one`). Frames go only to neighbours (`near`), and are at most 2^40
//!   (`few`). The node knows the same of itself (`place`). Out of memory the controller is unchanged (`err`).
//! - A step asks that fewer than 50,000 steps were made (`few`), and that a frame comes from a neighbour (`from`).
//! - The invariant of `Controller`: a hop to each neighbour, in order, which never lacks a number below 50,000 steps.
//!   What isn't acknowledged can be written. The flood has exactly the rows that the node knows.
//! - `Controller::pending`: how many messages (`hop`) and rows (`flood`) aren't acknowledged. A row counts once for
//!   each neighbour to which it is due.
//! - `Controller::recycle`, `Controller::recycle_list`: take back an input or a list of frames. Nothing changes.
//! - `is_at_rest`: if so, a tick changes nothing at the node, and each message and each row is acknowledged.
//! - `Controller::rows`: what a table shows of its node (`calls`, `legs`).
//!
//! Tested: `tests/test_replays.py` has two controllers whose frames are lost, go again, come twice and overtake, rows
//! that are flooded, and malformed bytes.
#![tactic(auto)]

pub mod controller;
mod floods;
mod reactions;
mod resting;

pub use control_channels::{Adjacency, CoreInput, Frame, Frames, Pending};
pub use controller::Controller;

//! Worlds: controllers that exchange frames over channels that lose, repeat and reorder, and what holds of their runs.
//!
//! The crate needs no code of a node or a controller. A world's image is the mesh that it shows.
//!
//! - `every_world_run`, over every run of a world. If each link has a number of its own, as in every topology
//!   (`topology`), the run gives a run of the mesh. That leads to the image of the last world (`image`), and all laws
//!   of mesh_laws hold of it (`laws`).
//! - The image stays under noise (`noise`), under a packet that isn't the next one of its hop (`unmoved`), and under a
//!   flood message that teaches nothing (`known`).
//! - `quiet`: if each work queue (desk) is empty and no message is unacknowledged, the image is quiet.
//! - `channels`, `counts`: a channel has exactly the packets that its sender's hop made. A node makes at most 50,000
//!   events.
//! - `flooding`: the floods of a world are those of a network of floods that began with the rows of the nodes' own
//!   links.
//! - `rows`, `truth`: what a node knows of links is what it floods, and it is only rows of the network.
//! - `same`, `links`: in a quiet world over a topology, nodes that a walk joins know the same rows, and those of each
//!   other's links.
//! - `controllers_are_the_worlds`: a controller that keeps what the world has of its node (`StandsAt`) still does so
//!   after the node's next event. What it sends is what the channels from there get (`IsStepOf`).
//! - The event is a frame of a channel (`deliveries`), any frame by what it bears (`contents`), noise (`noise`), an
//!   item of the work queue (`items`) or a tick (`ticks`).
//! - `others`, `neighbours`: an event changes no other node, and only neighbours of a node send to it on a channel.
//!
//! Tested: nothing, since it has no code that runs. `Example` works out runs, `FloodExample` one with a row that is
//! learnt, and `Twice` what happens if two links have one number.
#![tactic(auto)]

pub mod laws;

pub use laws::{controllers_are_the_worlds, every_world_run};

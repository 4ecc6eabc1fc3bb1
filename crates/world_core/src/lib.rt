//! Replays and migrations of worlds: controllers that exchange frames over channels that lose, repeat and reorder.
//!
//! A world that is replayed has a seat for each node: its controller, its work queue (desk), and the bytes of all
//! frames that were ever sent from there. The laws over its runs are those of world_rules.
//!
//! - `replay`: if Ok, the events are a run (`run`), and the answer has exactly the world to which it leads (`last`, by
//!   `StateStandsFor`). `NotRun` has the number, counted from 1, of the first event that isn't enabled (`not_run`). So
//!   unless memory runs out, the answer is Ok if and only if the events are a run.
//! - `migrate`: of the events in turn exactly those are kept that are enabled after the ones kept before. It tells how
//!   many are left out (`kept`).
//! - Law `every_migration`: what is kept is a run (`run`). None is left out if and only if the events are a run
//!   (`none`), and then all are kept (`all`). If `replay` answers `NotRun`, at least one is left out (`refused`). A
//!   list of events has only one migration (`one`).
//! - `World::rows`: the table of the mesh that the world shows, whatever world that is (`calls`, `legs`).
//! - `World::quiet`: true if and only if each work queue is empty and each message and each row is acknowledged.
//! - `World::frame`: the bytes of the frame with this number on a channel, and none if no such frame was sent
//!   (`frame_there`).
//!
//! Tested: `tests/test_replays.py` replays traces that are written by hand. It has frames that are lost, go again, come
//! twice and overtake, malformed bytes, flooded rows, and the first event that isn't enabled.
//!
//! Neither proved nor tested: that a frame is ever delivered, or that a world becomes quiet.
#![tactic(auto)]

pub mod acts;
pub mod channel;
pub mod faults;
pub mod laws;
pub mod migration;
mod noise;
pub mod replays;
pub mod seat;
mod seats;
pub mod world;

pub use laws::{every_migration, every_world_run};
pub use migration::{Events, Migrated, migrate};
pub use replays::{ReplayError, replay};
pub use world::World;

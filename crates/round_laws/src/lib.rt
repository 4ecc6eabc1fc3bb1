//! Laws of rounds in which no frame is lost: how many rounds pass until a fleet has restored what a failure hits.
//!
//! There is no code. A whole round (`IsWholeRound`) drops no frame, and loses or holds back only frames that their hop
//! wouldn't hand up any more.
//!
//! - `laws::every_round`: what nodes add to a record, merged by stamps, is a run from its world to the next (`merges`).
//! - A ring has all (`RingsHaveAll`) if its receiver hands up the last message that was sent, once it has taken what is
//!   in the ring. It is so if no message is unacknowledged (`quiet`), and again after a whole round (`rings`). That
//!   round hands up all that was sent before it (`up`).
//! - A round passes over no frame (`order`). A whole round in which rings had all is a sweep of the mesh (`sweeps`):
//!   all that was under way is taken, and each item of a work queue (desk) is handled.
//! - No frame is dropped on a channel if those in its ring and those sent in the round are 256 at most (`room`).
//! - `laws::every_made_record`: some run leads to the world of each record.
//! - `laws::every_failure`: let one group fail in a calm record with no unacknowledged message and empty work queues,
//!   over a topology. Let no later round drop a frame, and no line lose or hold back one that was sent since. Such
//!   rounds are whole (`since`). A guarded call that is hit is restored after as many of them as this sum (`soon`): the
//!   hops from its ingress to the nearest cut, twice the hops of its backup, and one.
//! - `in_order::every_round_in_order`: in a round in order (`IsRoundInOrder`) nothing that a node sent is left in the
//!   ring of one with a greater number. A node takes nothing that a later one sent in this round. A round with one
//!   worker is in order (`one_worker`), and a whole round in order is a sweep in order (`sweeps`). So calls are
//!   restored in as many rounds as mesh_laws says of sweeps in order (`soon`), also with one worker (`alone`).
//!
//! Tested over the built program by `tests/test_restoring.py`. With one worker a call around a ring turns in just as
//! many rounds, in 20 orders of its nodes, with each of its links cut.
//! Neither proved nor tested: that no frame is lost, and in how many rounds a fleet is quiet.
#![tactic(auto)]

pub mod in_order;
pub mod laws;

pub use in_order::every_round_in_order;
pub use laws::{every_failure, every_made_record, every_round};

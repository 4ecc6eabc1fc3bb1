//! The control channels of a node: a reliable hop to each neighbour, what is flooded there, and the frames that go out.
//!
//! As definitions the crate also says what a controller is and what its step makes of it. It needs no code of a node.
//!
//! - `ControllerState`, `IsControllerStep`: a controller, and its step. There is a case for a packet (`took`), a flood
//!   message (`took_flood`), an item of the work queue (desk) (`item_handled`), a tick (`after_tick`) and malformed
//!   bytes (`unmoved`).
//! - `IsKeptAfter`, `FloodFits`: what a controller keeps so that each step can be made.
//! - `hears`, `take`: what a packet is to the hop from a neighbour, which changes nothing, and the hop after taking it.
//! - `prepare_all`: prepares the messages of an answer and makes their frames. `commit_all` sends them, `discard_all`
//!   forgets them.
//! - `frame_due`: the frames of what goes again at the next tick, by neighbour and then by number.
//! - `age_all`: makes each message that isn't acknowledged a tick older.
//! - `acknowledge`: the frame that acknowledges a packet, if it is to be answered by one.
//! - `begun`: at the start the rows of a node's own links are due to each neighbour (`flood`, `fits`).
//! - `frame_first_sendings`: the frames of a new row, to each neighbour but the one that it came from.
//! - `frame_floods_due`: the frames of the rows that the next tick sends, by neighbour and then by number.
//! - `peers::adjacencies`: a hop to each neighbour, in order, over which nothing was sent (`new`, `kept`).
//! - `FrameMaker`: makes frames whose bytes have the meaning of what they bear (`spelled`). It may use the memory of
//!   old frames again, of which no clause tells.
//!
//! Tested: `tests/test_replays.py` has messages and rows that are lost, go again, come twice and are acknowledged.
#![tactic(auto)]

pub mod acks;
pub mod adjacencies;
pub mod floods;
pub mod frames;
pub mod inputs;
pub mod peers;

pub use acks::acknowledge;
pub use adjacencies::Adjacency;
pub use floods::{NewRow, begun, frame_first_sendings, frame_floods_due};
pub use frames::{Frame, FrameMaker, Frames};
pub use inputs::{CoreInput, Pending};

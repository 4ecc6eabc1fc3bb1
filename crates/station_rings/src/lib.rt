//! The two rings between a station and a neighbour, and the laws by which the logs of stations merge to one run.
//!
//! On a ring numbers rise, stamps never fall, and each frame bears something (`FollowsParcels`). At most 256 frames are
//! in a ring by the sender's own count, and one more is dropped.
//!
//! - `join`: both ends of a new link (`ends`), over which nothing was sent or taken (`first`, `second`).
//! - `Link::send`: the frame takes the next number (`sent`). It is dropped exactly when 256 frames are in the ring. It
//!   takes no memory. Conditions: a number is left (`numbers`), no frame before has a greater stamp (`stamps`), and the
//!   frame bears something (`bears`).
//! - `Link::is_used`: whether a frame was sent or taken, or came out of the ring, since the last look. If not, the link
//!   is as it was, except what the receiving end holds ready (`IsStillUnlessUsed`).
//! - `Link::head`: the number and the stamp of the first frame that wasn't taken, which stays (`head`). None is told if
//!   none is known to be in the ring. `Link::take` takes that frame.
//! - `look`: at both rings between two links. Nothing is sent or taken, and it takes no memory. All that was handed to
//!   a ring is then known at its end, and each sender knows how many frames are there (`there`, `back`). Conditions:
//!   these are the ends of the same two rings (`ends`), with at most 256 frames in each (`few`).
//! - `laws::every_event`: a station is sound by a list of deeds if it is as the node that did just these (`IsSound`).
//!   That is its controller, its work queue (desk) and its log. Each frame that it took came out of a ring with a lower
//!   stamp. A tick, an item, a frame, noise and a post are one more deed each (`tick`, `item`, `frame`, `noise`,
//!   `post`). What comes over the rings meanwhile is none (`listening`). A log has as many lines as its node made
//!   events (`count`), at most 50,000 (`few`). No law asks anything of another station.
//! - `laws::every_joining`: let each station be sound, and what came out of each ring be a first part of what its other
//!   end put there (`IsRingJoined`). Then each merge of their logs is a run of the world, for every schedule.
//!
//! Tested: through the tests of fleet, whose frames go over these rings.
#![tactic(auto)]

pub mod laws;
pub mod links;
pub mod parcel;
pub mod parcels;
mod rules;

pub use laws::{every_event, every_joining};
pub use links::{Link, join, look};
pub use parcel::Parcel;
pub use parcels::{Head, Parcels};
pub use rules::Rising;

//! The reliable hop between two neighbours (RFC 2961), over which messages are acknowledged and handed up in order.
//! Messages are numbered, kept until they are acknowledged, and sent again. `docs/hop.md` tells of it in words.
//!
//! - `Hop::new`, `copy`, `send`, `receive`, `tick`, `sent`: each is its definition in `Hop`. Out of memory nothing has
//!   changed (`err`). `send` asks that the last number that was sent or prepared is below 4,294,967,295.
//! - `prepare` gives a message its number and makes room for it (`packet`, `ok`, `err`). `next_packet` and `keep` do
//!   the same in two calls, so that a packet can be framed first. `commit` sends what is prepared, and is never
//!   refused. `discard` forgets it.
//! - `due` tells what the next tick sends again, and `age` makes the tick. `hears` tells what a packet is, and `take`
//!   takes it.
//! - `pending`: how many messages are unacknowledged (`count`), at most those that were sent (`most`).
//! - `Heard::acked`: the number that the answer to a packet acknowledges. `Next` and `Repeat` are answered with the
//!   packet's own number, and the others aren't answered.
//! - The invariant of `Hop`: the numbers of the unacknowledged messages rise up to the last that was sent
//!   (`AreSentInOrder`). The prepared ones go on behind it (`AreNumberedAfter`) and have room (`HasRoom`).
//! - Law `every_schedule` is over two ends and a channel that loses, repeats and reorders, in both directions. What is
//!   handed up is a prefix of what was sent, each message once and in order (`in_order`). A sent message that isn't
//!   handed up is still unacknowledged (`kept`). If nothing is unacknowledged, all was handed up (`settled`). What was
//!   sent beyond what was handed up is what waits (`waiting`). Unacknowledged messages are in order of number
//!   (`rising`).
//! - Law `rhythm`: an unacknowledged message goes again 1, 3 and 7 ticks after its first sending, then every 60.
//!
//! Tested: codec_tests send a message in one part, and a copy of the hop sends it again. `tests/test_replays.py` has
//! messages out of order and twice, and the ticks at which one goes again.
//! Neither proved nor tested: that a message ever arrives, since a channel may lose all.
#![tactic(auto)]

pub mod ages;
pub mod heard;
pub mod hop;
pub mod laws;
pub mod unacked;

pub use heard::Heard;
pub use hop::Hop;
pub use unacked::Unacked;

//! Flooding of rows of links between neighbours, and the frames of control channels, which bear a message or a flood.
//!
//! - `decode_flood`: with Ok the bytes spell the flood message (`found`) and no other (`only`). NotMessage comes
//!   exactly when they spell none (`not_message`).
//! - `encode_flood`, `append_flood`: the bytes of `flood_bytes` (`written`), which spell the message (`spelled`).
//!   `append_flood_ref` takes a `FloodRef`, whose row is elsewhere.
//! - Laws `floods_come_back`, `floods_go_on`: what is written spells its message, and what bytes spell can be written.
//! - `Flood::new`, `declare`, `receive`, `tick`, `rows`, `known`, `pending`: each is its definition in `State`. Out of
//!   memory nothing has changed (`err`). `declare` asks for a row of this node (`own`) that isn't known (`unknown`) and
//!   has room (`room`).
//! - `answer` and `due` tell what is to be sent and change nothing. `take` and `age` change what is kept, and `age`
//!   takes no memory.
//! - Law `every_list_of_calls`, of one node: known rows stay (`known`), and each was declared or received (`brought`).
//!   A new row becomes due to each neighbour but the one that it came from (`others`). It stays due until that
//!   neighbour acknowledges it (`until`). It is off then (`off`), and never becomes due to it again (`never_again`).
//! - Law `different_ends`: the ends that are counted are those of the rows (`listed`), each once (`once`).
//! - Law `every_flooding`, over a network, whatever messages are lost, repeated or overtaken: a node knows only rows of
//!   the network (`truth`). Routes can be asked for over them (`search`). The sender of a row knows it (`sent`). It is
//!   new to the receiver exactly when its link isn't known there (`new`), so none is refused for lack of room. What is
//!   due is in order of number (`rising`). On one channel one number is one row from one origin (`numbers`). If nothing
//!   is due, nodes that a walk joins know the same rows (`same`), and among them are those of their links (`links`).
//! - Law `every_start`: the rows of a topology's links are such rows (`topology`). `Flood::new` makes the one start
//!   (`new`), and each node can declare each of its own rows there (`declared`).
//! - `read_frame`: a packet after the byte 46, a flood message after 89 (`IsFrame`). NotMessage comes exactly when the
//!   bytes are malformed. `body_of` tells the body by the first byte (`some`), and none comes only when the bytes are
//!   malformed (`none`).
//! - `write_frame`: the bytes of a frame (`written`), which bear the content again (`spelled`).
//! - Law `every_cut`: a frame that isn't malformed is so without its last bytes (`PrefixesSpellNothing`).
//!
//! Tested: codec_tests write an acknowledgement, take a row and tick a copy. `tests/test_floods.py` has bytes that
//! spell a message or none, `tests/test_frames.py` the frames of a run, and `tests/test_replays.py` rows that go again
//! or are passed on.
//! Neither proved nor tested: that a message ever arrives, so that a network ever becomes quiet.
#![tactic(auto)]

pub mod content_ref;
pub mod due;
pub mod flood;
pub mod frame_laws;
pub mod frames;
pub mod known;
pub mod laws;
pub mod message_refs;
pub mod messages;
pub mod neighbours;
pub mod sends;

pub use content_ref::ContentRef;
pub use due::Due;
pub use flood::Flood;
pub use frames::{Body, Content, body_of, read_frame, write_frame};
pub use message_refs::FloodRef;
pub use messages::{FloodMsg, append_flood, append_flood_ref, decode_flood, encode_flood};
pub use neighbours::FloodNeighbour;
pub use sends::{FloodOut, FloodSends};

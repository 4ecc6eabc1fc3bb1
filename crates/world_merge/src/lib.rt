//! What happened at each node, merged by stamps, is one run of a world, whatever the schedule.
//!
//! Each node has a list of deeds with stamps: a tick, an item that was handled, a frame that was taken, noise, or a
//! post. A frame is there with what it bears, so nothing of another node is read.
//!
//! - `every_merge`, clause `run`: let each list be possible with its node only, and each frame that was taken be sent
//!   with a lower stamp (`AreHistories`). Then every merge by stamps is a run of the world, in which each node keeps at
//!   last what it made by itself (`IsRunOf`). The last world is the same for each merge (`assembled`).
//! - Clause `sorted`: logs and posts sorted by stamp, then node, a post first, are such a merge, if stamps rise at each
//!   node.
//! - Clause `picked`: taking the least head of sorted lists again and again (`merged_of`) gives one sorted list. Lines
//!   that only one list has, as those of one node, keep their order.
//! - Clause `posts`: nodes with the same posts agree on what was posted and which groups have failed, whatever else
//!   they did.
//! - `every_stamp`: the stamp of a frame (`sent_stamp`) is that of the deed that sent it (`now`), and nothing later
//!   changes it (`later`).
//! - `Merging::new`: the merge of these lists, which are lent.
//! - `Merging::next`: the lines one after the other, by `merged_of`. Each is lent, not copied. Of heads at one place in
//!   the order that of the earlier list comes first. The lists need not be sorted.
//! - `every_merging`: the posts and the logs of the nodes, each sorted and each log with only its node's lines, merge
//!   to the one sorted list that has them all (`merges`). Any merge has as many lines as its lists together (`count`).
//!
//! Tested: nothing of its own. `Example` works out three nodes, of which two tick with the same stamp. Both merges are
//! runs, and lead to one world.
#![tactic(auto)]

mod heads;
pub mod laws;
pub mod merging;
pub mod merging_laws;

pub use laws::{every_merge, every_stamp};
pub use merging::Merging;
pub use merging_laws::every_merging;

//! A viewer of a node's legs reads tables in its own thread, while the node's station goes on and publishes new ones.
//!
//! It uses the kit's left_right under its own rule (`Keeps`): what is published begins with all that a thread saw or
//! was told of.
//!
//! - `pair`: the publisher has published the first table (`publisher`), and the viewer keeps it as table 1 (`kept`,
//!   `count`).
//! - `Publisher::publish`: its condition is that the table is of a log no shorter than the last one's (`rises`). With
//!   Ok it publishes what waited and then the table, behind all that was published before (`ok`). If it is out of
//!   memory it publishes nothing, and the table may wait for the next call (`err`).
//! - `Publisher::told`: a token of all that is published (`told`), and nothing changes (`same`).
//! - Only `Publisher::end` uses up a publisher. It may wait for a viewer that reads.
//! - `Viewer::read`: the table that was kept, or the last of those that are published then (`read`, by `HasReadTable`).
//!   Its number is no less than that of the table before. Right after a token with no lesser number was learnt, it is
//!   the last table of which that tells. If it is out of memory the kept table is as it was (`refused`).
//! - `Viewer::learn`: it takes no memory. It keeps the last table of which the token tells, unless the one kept has a
//!   greater number (`HasLearnt`).
//! - `Viewer::learn_last`: the same for the last token that there is (`HasLearntLast`). So the next read is the last
//!   table of which that token tells. A viewer that has read more tables belongs to another publisher, and begins anew.
//! - No clause of left_right says that a reader gets in. So no clause here refuses a viewer that always answers the
//!   table it keeps.
//!
//! Tested: world_tests has a read that shows more than what was learnt.
//! Neither proved nor tested: that what a viewer read before it learnt a token is among what it reads later, except by
//! its number.
#![tactic(auto)]

mod node_table;
mod past;
mod publisher;
mod rule;
mod shelf;
mod told;
mod viewer;

pub use node_table::NodeTable;
pub use publisher::{Publisher, pair};
pub use told::Told;
pub use viewer::Viewer;

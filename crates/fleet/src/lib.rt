//! The stations of a network on threads: rounds, posts, failures of groups, and the logs of all nodes in one order.
//!
//! Stations share nothing but the rings between them. Whatever is called and answered, a fleet that agreed with a
//! record agrees with one afterwards (`StandsFor`).
//!
//! - `Fleet::new`: the fleet of the record in which nothing was done (`stands`). No node is watched (`unwatched`).
//! - `Fleet::round`: each station makes `stride` turns, the first with a tick. Each worker has as many stations as
//!   another one, or one more (`front_len`). With one worker they turn on the caller's thread, in order of number.
//! - With Ok that is a round of the record, and so many lines were written. `AtLimit` tells the least node that left an
//!   input since its log was full. After `Starved`, out of memory, more was done and nothing was posted (`Rounds`).
//! - After the workers each watched node publishes its table (`publishes`). Unless the answer is `Starved`, the last
//!   one published is that of the node after the round.
//! - `Fleet::watch`: the node is watched from now on (`WatchesAt`). It is refused exactly if it is watched or out of
//!   memory. `Fleet::told`: a token of all that was published of the node, none exactly if it isn't watched (`told`).
//! - `Fleet::post`: a command of a call goes to the work queue (desk) of its ingress. When a group fails or is repaired
//!   each node gets the news of its own incoming fibres (`on`, by `Posts`). All clocks go on to the post's stamp. If it
//!   is out of memory, or 2^32 commands were posted, only the room in work queues differs (`same`).
//! - `Fleet::disturb`: a line names the k-th frame from now on of a channel (`on`). `Fleet::noise`: bytes that are no
//!   frame are one line of their node (`on`). After a refusal of either nothing has changed (`err`).
//! - `Fleet::entries`, `Fleet::merged`: the lines of all logs and the posts in one order, which is a run that leads to
//!   the record's world (`merges`, by `Merges`). `Fleet::entry_count`: how many these are (`count`, `record`).
//! - `Fleet::quiet`: whether nothing waits in the record's world. `Fleet::pending` tells what does (`desk`, `hop`,
//!   `flood`). `Fleet::rows`: all rows that the table shows, nodes in order of number (`calls`, `legs`).
//! - `AreSettled`, the invariant: each node has its seat, its station and its links, and each channel the ends of its
//!   rings. One more look at a ring would change nothing.
//! - Only `Fleet::end` uses up a fleet. It may wait for each viewer.
//! - `laws::every_fleet`: what a fleet agrees with is a record, so each merge of it is a run (`record`). Its logs and
//!   posts are the fleet's (`made`). The log of a node that has a neighbour is full if its station's is (`full`).
//!   Nothing waits at its nodes exactly when nothing waits in the world (`quiet`).
//!
//! Tested with ample memory: a frame passes between workers within a round, nine nodes on eight workers are on eight
//! threads, and a viewer reads within a round. `tests/test_answers.py` has a call that is set up in two rounds, and
//! what waits after the first. `tests/test_traces.py` has a link that fails twice.
//! Neither proved nor tested: that a run becomes quiet, and any speed.
#![tactic(auto)]

pub mod fleet;
pub mod joining;
pub mod laws;
pub mod looks;
pub mod merging;
pub mod noises;
pub mod posts;
pub mod rounds;
pub mod seats;
pub mod telling;
pub mod views;
pub mod waiting;

pub use fleet::{Fleet, FleetPending, RoundFault};
pub use laws::every_fleet;

//! Records of what stations did, what a turn and a round add to them, and the laws that tie stations to records.
//!
//! A record has what each node did (`Doing`), deeds and what became of frames, and the frames that were dropped. Logs,
//! posts, rings and the world are functions of it. There is no code but two types, so there is no test of its own.
//!
//! - `laws::every_record`: the logs and posts, sorted by stamp, then node, a post first, are a run that leads to the
//!   record's world (`runs`). Its condition is that the nodes did what could happen (`IsRecord`). If the frames that
//!   were taken from a ring are the first that were handed to it, the others are still there, in order (`rings`).
//! - `laws::every_turn`: a turn is a function of what the node did before, of the held frames that are due and of those
//!   that it takes (`function`). A turn and one without a tick after it are one (`together`), so all turns of a node in
//!   a round are one turn.
//! - `laws::every_limit`: a turn up to a node's limit is the whole turn if it doesn't halt (`ends`). Else it is a first
//!   part, cut at an input for which the log was full or no stamp was left (`halts`). Nothing follows from what it
//!   might have taken later (`last`). Turns and then a cut turn are one (`together`). The input that is left was at
//!   hand (`stops`).
//! - `IsRound`, `IsUnfinished`: a round of all nodes on any number of workers, and one that a limit ends. No frame of a
//!   ring is passed over (`AreFramesAt`). With one worker a round is a function of the record (`one_round`).
//! - `part_laws::every_part`: each part of a turn is one more doing of the station (`StandsBy`): a tick (`tick`), an
//!   item (`item`), or a frame. A frame is taken (`taking`), held (`holding`), let go (`freeing`), delivered
//!   (`delivering`) or lost out of memory (`losing`). An input is left at the limit (`leaving`). Noise and a post are
//!   doings too (`noise`, `post`). What comes out of a ring is none (`listening`).
//! - `fleet_laws::every_fleet`: if stations agree with a record (`AreStanding`), its logs are a run. Condition: what
//!   came out of each ring is a first part of what was handed to it.
//! - `fleet_laws::every_look`: after looks the stations agree with the same record (`stands`). All of a ring that was
//!   looked at is known (`tells`). So what came out of it is a first part of what was handed to it (`begun`).
//! - `fleet_laws::every_round`: if all in the rings is known, and each station makes its turns on whatever thread, the
//!   stations agree with a record. It is a round if all turns came to their end, and one that a limit ends if some
//!   halted with a full log and none was out of memory.
//! - `fleet_laws::every_worker`: with one worker the stations turn node by node (`begins`, `placed`, `node`), with
//!   looks between (`looks`, `begun`). The end is the round that `one_round` tells (`ends`).
//! - `fleet_laws::every_clock`: no clock is above the number of all deeds (`few`, `deeds`), while posts take the next
//!   stamp (`posts`). So with at most 2^32 posts a station at its limit has a full log (`limits`).
//! - `fleet_laws::every_start`: new stations with new rings agree with the record in which nothing was done.
//! - `fleet_laws::every_command`: a post, noise and a line that names a frame change stations as they change the record
//!   (`posts`, `noise`, `lines`), and the world so too (`posted`, `noised`). Rounds post nothing (`rounds`, `cuts`).
#![tactic(auto)]

pub mod fleet_laws;
pub mod held;
pub mod laws;
pub mod part_laws;
pub mod turns;

pub use fleet_laws::{
    every_clock, every_command, every_fleet, every_look, every_round, every_start, every_worker,
};
pub use held::HeldParcel;
pub use laws::{every_limit, every_record, every_turn};
pub use part_laws::every_part;
pub use turns::Turn;

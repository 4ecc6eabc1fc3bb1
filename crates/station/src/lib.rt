//! A station: a controller with its work queue (desk), its log, its clock and its ends of the rings to neighbours.
//!
//! - `Station::new`: nothing was done, and there is no link (`IsNewStation`). `Station::connect`: two neighbours get
//!   the ends of two new rings as their last links (`ok`), or nothing has changed (`err`).
//! - `Station::turn`: a tick if one is asked for, the held frames that are due, all items of the work queue, then the
//!   frames of each ring. It takes at least those that were known to be there. The station is then that of a turn up to
//!   the limit, whatever its node did before (`made`).
//! - A turn at its limit leaves an input, since the log is full or no stamp is left. Out of memory, it is a first part
//!   of a turn, and at most the frame of the refused line is lost. Any other turn is whole.
//! - A turn names no other station and takes no lock. A frame is sent while fewer than 256 are in the ring by the
//!   sender's count, and else it is dropped.
//! - `Station::turns`: so many turns, the first with a tick (`turns`). `Station::turns_alone`: the same while no other
//!   station works. It passes over rings in which nothing is known to be, and no clause tells the two apart.
//! - A line of the script that names a frame acts when the frame is taken, and the last such line counts. The frame is
//!   lost, delivered twice, held back until the second tick after, or delivered.
//! - `Station::noise`: bytes that are no frame are one line of the log and one step of the controller, and the node
//!   stays as it was (`ok`). Or nothing has changed (`err`).
//! - `Station::look`: a look at both rings between two stations changes nothing but their links at these places
//!   (`AreTwoLooked`).
//! - `Station::watch`: its table is the first one that is published, and the viewer keeps it (`Watches`). It is refused
//!   exactly when the station is watched already or out of memory, and then nothing has changed.
//! - `Station::publish`: its table is its legs and the length of its log at that moment (`table_of`). It is published
//!   behind what waited (`ok`), or nothing is, and it may wait (`err`). Turns and noise publish nothing (`publisher`).
//! - `Station::told`: a token of all that it has published, exactly if it is watched (`told`), and nothing changes
//!   (`same`).
//! - Only `Station::end`, which may wait for its viewer, and `Station::unmake` of one that isn't watched use up a
//!   station.
//!
//! Tested by `tests/test_traces.py`: a tick and two items, which are three lines, and a turn that is a tick only. Tests
//! of fleet show two stations that run at the same time.
#![tactic(auto)]

mod desks;
mod dues;
mod halts;
mod items;
mod lines;
mod links;
mod noises;
mod others;
mod parts;
mod rings;
pub mod station;
mod ticks;
mod turning;
mod watching;

pub use station::Station;
pub use watching::WatchFault;

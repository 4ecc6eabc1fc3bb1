//! Tests of fleets on threads, of their viewers, and of sources and sinks that fail: what no command shows.
//!
//! - `gates`: fleet and ason_main on two threads and on eight. Two nodes that wait for each other meet on two workers,
//!   and on one worker the first waits in vain. A frame passes between workers within a round.
//! - `views`: a viewer reads a table of lines that were written within a round in which the watched node waits for
//!   that. One that was given to a run of a plan keeps a table that it read beside the rounds, which it answers when
//!   nobody publishes any more.
//! - `faults`: the top call with a source and a sink that fail at any of their calls.
//! - `networks`: the networks of these tests.
//!
//! The heads of these crates say what the tests show. There is nothing here but tests, which are proved too, and
//! nothing is promised of them. They need threads and ample memory.
#![tactic(auto)]

#[cfg(test)]
mod faults;
#[cfg(test)]
mod gates;
#[cfg(test)]
mod networks;
#[cfg(test)]
mod views;

//! The trace of a run: written while its entries come, read by its form, and checked to be that of a run of its plan.
//!
//! - `write_trace`: version 2 of a trace, byte by byte (`all`). A fault leaves a first part, and not all (`part`): each
//!   line is written before the next entry is asked for. `Failed` comes only if the sink's count rose (`failed`).
//!   Condition: the iterator ends, and `count` is the number of its entries (`counted`).
//! - `entry_line`: the line of an entry. A post is told as a script line, with single spaces (`command_text`). That
//!   these are the words of the plan's own line isn't proved.
//! - `read_trace`: what the bytes are by their form only (`reads`, by `ReadsAs`). That is the version, 1 or 2, the
//!   plan, the entries and the text of the table. Or it is the first index that is wrong, or the first fault of the
//!   plan. A plan that is read has what plan_reader promises (`valid`, `postable`, `named`).
//! - `check`: whether the bytes are the trace of a run of their plan, with that run's table (`checks`, by `ChecksAs`).
//!   Else it answers the first index that is wrong (`IsNotRun`) or the first fault of the plan (`IsRefused`). That
//!   index may be the number of an event that can't happen, or of what follows the events. A trace of version 1 that
//!   has the form passes, whatever its table. Its events that can't happen are left out and counted.
//! - `laws::every_check`: bytes are checked with one answer, out of memory aside. So `check` refuses no trace of a run
//!   with its table.
//! - `laws::every_checked`: the trace that is written of what nodes did is the trace of a run (`run`). Each node of a
//!   plan is found by its name (`named`), and what a script has posted are the first commands of its lines (`posts`).
//! - `laws::every_trace`: the line of an entry says this entry (`line`), and lines say their entries (`lines`). The
//!   text of a trace is read as its plan, entries and table (`trace`), if its entries can be told (`CanAllBeTold`).
//! - `laws::every_reading`: bytes are read with one answer, out of memory aside.
//! - `laws::every_merge`: what comes of a merge, to its end, are the lines that it has left. So a trace can be written
//!   while logs merge.
//!
//! Tested over the built program by `tests/test_traces.py`.
#![tactic(auto)]

pub mod checking;
mod commands;
mod entries;
mod forms;
pub mod laws;
mod lines;
mod pieces;
pub mod read;
mod reading;
mod words;
pub mod write;

pub use checking::{Checked, check};
pub use read::{Entries, Trace, TraceFault, read_trace};
pub use write::{TraceWriteFault, write_trace};

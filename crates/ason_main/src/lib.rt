//! The top call: it runs plans over a fleet of stations and tells tables, traces, surveys, views and generated loads.
//!
//! - `ason` takes threads, words, a source, a sink, a gate before the lines of logs, and a place for the fleet that is
//!   kept. Its clause `answer` gives a reply that fits the words, the input and the fleet (`IsReply`), and says how it
//!   was written.
//! - The usage is told exactly if the words have no meaning, and then nothing is read. The plan is the one that the
//!   bytes have, or its first fault is told. Of more than 4,194,304 bytes nothing is judged.
//! - After a run that ends, the text is an output of the plan on so many workers (`IsTheOutput`). If a node came to its
//!   limit it is the output so far and the line of the stop (`IsTheStoppedOutput`). After a trace it is the trace of a
//!   run (`IsTheTrace`). A survey is the one that the plan has (`IsTheSurvey`).
//! - `IsOneRun`: at each stage every merge of the logs is a run of which all laws of mesh_laws hold. After a fail line
//!   with only settle, wait and show behind it, calls are restored in as many rounds as their routes take, if no new
//!   frame is lost, held back or dropped. Loads are such runs too, and so are runs that ran out of memory.
//! - With one worker a plan has one list of stages and one text. With more it is free which run is made.
//! - A watched run's text is the output and then the view of the node (`IsWatched`, `IsViewOf`). Of a plan without such
//!   a node the line that says so is told, and nothing is run. The viewer has read since it learnt the last token
//!   (`HasReadAtEnd`).
//! - If a survey says that the network is calm, it is quiet and calm (`CalmHolds`). While only two groups without a
//!   line of contention fail and are repaired, no activation is refused. Nothing may be set up, released or protected
//!   meanwhile.
//! - The fleet of a run, a load or a survey is kept after it (`HasKeptFleet`). After out of memory it is that of the
//!   run as far as it came (`HasKeptBegun`). After a write fault of a run it is that of the line which the sink refused
//!   (`IsBrokenOff`).
//! - The clause `complete`: let a source tell the bytes to come, and no source or sink fail. A run of a plan without a
//!   fault is done or stopped, or out of memory. With one worker the function of the script tells which (`RunComesTo`).
//!   A check ends as the bytes are the trace of a run or not (`EndsWell`). The clause `loads` says so of loads.
//! - The clause `checked`: a whole trace that was written passes the check, unless that is out of memory or the trace
//!   is too long (`IsCheckedTrace`).
//! - `run_plan`: runs the script, and writes what a line prints as soon as the line is done (`IsRan`). No clause says
//!   that a viewer reads beside the rounds. `survey_of`, `tell_trace`, `load_text`, `view_of`: the text of a survey, of
//!   a trace, of a load and of a view. `do_line`, `make_rounds`: what a line does, and its rounds (`Does`).
//!
//! Tested over the built program by `tests/test_workers.py`, `tests/test_schedules.py`, `tests/test_traces.py`,
//! `tests/test_views.py` and `tests/test_loads.py`. In world_tests nodes on two workers meet, a source and a sink fail
//! at any call, and a viewer reads beside the rounds.
#![tactic(auto)]

pub mod answers;
mod host;
mod keeping;
mod laws;
mod loading;
mod loads;
mod runner;
mod surveying;
mod tables;
mod traces;
mod watching;

pub use answers::ason;
pub use commands::Status;
pub use runner::run::{Ran, run_plan};

//! What the words after the program's name ask for, and the answers for which no fleet is needed.
//!
//! - `task_of`: the task that the words name, none exactly if they have no meaning. Options come in any order, each at
//!   most once, and the trace and a watched node exclude each other (`run_of`, `options_of`). Any word is the name of
//!   the node to watch. It takes no memory.
//! - `Pace::workers`, `Pace::stride`: 1 to 16 workers and 1 to 64 turns a round, each 1 if the words don't say it
//!   (`some`, `most`).
//! - `Load::seed`, `Load::nodes`, `Load::calls`: a seed below 2^64, an even number of nodes from 4 to 64 (`even`), and
//!   1 to 4,096 calls (`load_of`).
//! - `check_input`, `decode_input`: the answers to a trace and to lines of messages (`IsCheckReply`, `IsDecodeReply`).
//!   `tell_ends`: the answer to a question about two nodes of a plan (`IsAskReply`). `tell_error`: the first fault of
//!   bytes that are no plan.
//! - `WasGiven`: a reply is written as a whole, with its own status. Or the sink's count rose, a proper first part was
//!   written, and the status says so. Out of memory is a reply too.
//! - `tell`, `tell_usage`, `tell_stop`, `tell_unknown`, `refuse`: such texts, with a given status (`WasTold`,
//!   `WasToldOrNothing`).
//! - `EndsCheck`: a check is done exactly if the bytes are the trace of a run, out of memory aside. It ends with the
//!   status for no run exactly if they are none and their plan has no fault.
//! - `are_reserved`: whether by these rows each backup is only asked for or held.
//! - `Status::code`: the exit status of the process, 0 to 8, by `exit_status`.
//!
//! Tested: `tests/test_workers.py` has options in any order, and `tests/test_loads.py` the numbers of a load. Both have
//! words without a meaning. Answers are tested over the built program, as by `tests/test_decode.py` and
//! `tests/test_traces.py`.
#![tactic(auto)]

pub mod answers;
pub mod calm;
pub mod checks;
pub mod loads;
mod numbers;
pub mod options;
pub mod status;
pub mod tasks;
pub mod telling;
pub mod words;

pub use loads::Load;
pub use options::Pace;
pub use status::Status;
pub use tasks::{Inquiry, Question, Task, task_of};

//! Plans in TOML: a network, a script of lines to be run over it, and the first fault of bytes that are no plan.
//!
//! - `read_plan`: the plan or its first fault (`plan`). A plan's network is a topology (`valid`), and its lines can be
//!   posted one after the other (`postable`). It has a name for each node and each setup (`named`). Bytes have one
//!   meaning only (lemma `plans_agree`).
//! - Entries are read one after the other, up to the first fault. What an entry says and what its fault is are one
//!   definition each: `with_plan_node`, `plan_link`, `AddsLine`.
//! - A setup line has one of five forms (`setup_form`): protected or not, with given routes or without. With the word
//!   `both` it is two-way. Six forms post another command (`command_form`). Such a line names a call of a setup before
//!   it, or a group of the network.
//! - A line of frames loses, repeats or holds one (`disturb_form`), or brings noise (`is_noise`). Its nodes are
//!   neighbours, and noise that is a frame is a fault.
//! - `read_plan_1`: the same of plans from before two-way calls, in which the word `both` is one too many.
//! - `Name::new`: a name. `is_name` tells which bytes are one. `NamedCalls`: the calls of a script, found by their
//!   names.
//! - `laws::every_plan`: the network of each plan, two-way setups or not, is a topology (`valid`). Each node has a
//!   name, and no name is given twice, to nodes or to calls (`names`). So each is found by its name.
//! - `constants::limits`: the limits of a plan's text, in numbers.
//!
//! Tested: `tests/test_plans.py` has the forms of setups, of other commands, of lines of frames and of waits, each with
//! its first fault. `tests/test_answers.py` has other lines and the tables.
#![tactic(auto)]

// Ends the function with this fault where the condition holds.
macro_rules! refuse_if {
    ($wrong:expr, $kind:ident) => {
        if $wrong {
            return Err(EntryError::Fault(PlanKind::$kind));
        }
    };
}

mod calls;
mod commands;
pub mod constants;
pub mod faults;
mod forms;
mod frames;
pub mod laws;
pub mod limits;
pub mod lines;
mod links;
pub mod names;
mod nodes;
pub mod plan;
pub mod reader;
mod script;
mod setups;
mod top;
mod values;
mod words;

pub use faults::{PlanEntry, PlanError, PlanFault, PlanKind};
pub use lines::{Line, Lines};
pub use names::{Name, Names, is_name};
pub use nodes::node_named;
pub use plan::Plan;
pub use reader::{read_plan, read_plan_1};

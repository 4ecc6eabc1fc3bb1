//! The texts that are printed of a plan: tables, surveys, routes, the best pair of routes, views and faults.
//!
//! - `write_table`: the text of a table by the plan's names, byte by byte (`ok`). Out of memory, nothing is appended
//!   (`err`). `write_unsettled` and `write_stopped` write the lines of what is unsettled and of a stop so too.
//! - `refused_text`: the line of a plan's first fault. `unknown_text`: the line of a name that no node has.
//! - `route_text`: a function of the plan and two names. It has the least walk over the plan's own links, the least
//!   route that may be its backup, and the least cost to each node. Its condition is that the network is a topology, as
//!   in every plan that is read.
//! - `best_text`: the best pair of routes with its total and costs, or that there is none, or that the network is too
//!   large (`IsBestText`). The certificate's word is what the checker of pair_search answers (`checker_line`), and it
//!   is yes. The functions that write it tell the checker's answer of whatever certificate they get (`judged_pair`). A
//!   plan and two names have one such text (lemma `one_text`).
//! - `survey_start`, `push_contends`: the text of a survey. It tells whether the network is calm, has a line for each
//!   group that hits a call, and one for each two calls that would contend.
//! - `view_text`: a line with a node and a number of entries, then a line for each leg.
//! - `node_of_name`: the node of a name, none exactly if the plan has none.
//! - `call_name`, `node_name`, `push_links`, `push_group`: parts of these texts, which traces have too.
//!
//! Tested: `tests/test_answers.py` has tables and lines of what is unsettled, `tests/test_plans.py` guarded calls,
//! closing legs and routes, `tests/test_best.py` best pairs, and `tests/test_survey.py` surveys.
#![tactic(auto)]

pub mod best;
mod ends;
pub mod fault_text;
pub mod routes;
pub mod survey;
pub mod table;
pub mod views;
pub mod words;

pub use best::best_text;
pub use ends::node_of_name;
pub use fault_text::refused_text;
pub use routes::route_text;
pub use survey::{push_contends, survey_start};
pub use table::{call_name, node_name, write_stopped, write_table, write_unsettled};
pub use views::{unknown_text, view_text};

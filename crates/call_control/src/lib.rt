//! The rules of calls at an ingress (ITU-T G.8080, call control): setups, backups, turning, going back and releases.
//!
//! Each answer is exactly that of the definition at a node of these tables. Routes that are searched for are handed in.
//!
//! - `SetupRequest::of`: what a setup asks for is read off its command in this one place.
//! - `set_up`: a working LSP is asked for, or the call is blocked with a cause (`setup_here`). A setup of a known call
//!   does nothing.
//! - `protect`, `pair`: a backup is asked for beside the working LSP, or the call has none, with a cause
//!   (`protect_here`, `pair_here`). It goes over the given route, else over the one that was found.
//! - `seeks_route`, `sought_by_protect`, `sought_by_resv`: whether a route is to be searched for, and beside which LSP.
//!   The one that is handed in must then be the least, or none if there is none (`IsRouteFor`, `IsBackupFor`).
//! - Setups and backups also ask that the node's links fit it and the tables have the rows that it knows
//!   (`RowsAreKnown`). The tables, the owner and the shares must be of one node.
//! - `answer_resv`: a call whose working LSP got its labels is set up, and its backup is asked for if it is protected.
//!   One whose backup got its labels is guarded, and may turn at once (`answered_here`).
//! - `refuse_lsp`, `refuse_as`: a call whose working LSP is refused is blocked, and one whose backup is refused has
//!   none. The code of the refusal is the cause (`call_refused_here`).
//! - `decide`: by its state and its reported fibres a call turns, goes back, is stuck or is guarded again. It is stuck
//!   as busy if another activated backup uses a label of its backup here.
//! - `answer_confirmed`, `answer_busy`, `answer_report`: what becomes of a call whose backup is activated or can't be,
//!   or that is told of a fibre (`turned_here`, `contended_here`, `reported_here`). What is decided then is part of it.
//! - `retry`, `revert_change`, `release`: the rules of these orders (`retry_here`, `revert_here`, `release_here`).
//! - `tick_change`: a turned call whose working LSP isn't reported counts the tick, and goes back at the end of the
//!   wait (wait to restore: ITU-T G.808.1).
//! - Whatever may turn a call asks that the owner's claims and marks are those of the legs.
//!
//! Tested: `tests/test_calls.py` has setups, refusals, backups, releases, retries, reports, and calls that go back by
//! an order, after waits and by a report. node_tests has an ingress that has given out all its numbers.
//!
//! Neither proved nor tested: that node_core searches for a route only when one is sought. One search more would have
//! no effect, and no clause refuses it.
#![tactic(auto)]

mod activations;
pub mod call_states;
mod call_steps;
mod first_legs;
mod first_links;
mod ingress;
mod pairs;
mod protects;
mod releases;
mod reports;
mod retries;
mod reverts;
mod setups;
mod turns;
mod waits;

pub use activations::{answer_busy, answer_confirmed};
pub use call_steps::{answer_resv, refuse_as, refuse_lsp, sought_by_resv};
pub use ingress::{IngressParts, id_of, leg_of};
pub use pairs::{PairRequest, leave_bare, pair, route_from};
pub use protects::{protect, sought_by_protect};
pub use releases::release;
pub use reports::{answer_report, fibre_of, reported};
pub use retries::retry;
pub use reverts::revert_change;
pub use setups::{SetupRequest, seeks_route, set_up};
pub use turns::{decide, go_back, has_any};
pub use waits::tick_change;

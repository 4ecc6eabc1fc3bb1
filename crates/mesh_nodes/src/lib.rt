//! What a node keeps and sends under any input, even one that no run ever brings, and which routes it finds.
//!
//! Each clause of the laws is a theorem. Laws of controllers and worlds wait for these definitions and for no code of a
//! node.
//!
//! - `Input`, `answer_to`, `stepped`, `MayTake`: an input, its rule, the node after it, and which may come.
//! - `every_answer`: of nodes that know their own links and keep what fits them (`NodeFits`). A node of a topology
//!   without legs and calls is one (`new`).
//! - It still is one after any message (`messages`), any item of its work queue (desk) (`items`), and a tick with at
//!   most 65,536 calls (`ticks`). What it sends goes to neighbours, is at most 65,536 messages, and can be written if a
//!   message that came can be passed on (`AnswerFits`).
//! - `least_routes`: of all rows that can be searched (`AreSearchable`). A route is found if and only if it is the
//!   least of all walks of any length (`least`). There is none if and only if no walk joins the nodes (`none`).
//! - So it is with backups, which share no risk and no inner node with a primary route (`backup`, `no_backup`). Neither
//!   visits a node twice (`once`, `backup_once`). A node of a topology that learnt nothing can be asked for routes
//!   (`new`).
//! - If a node learnt only rows of its topology, a route and a backup that it finds lead there as a given one does
//!   (`leads`, `backup_leads`). If it knows each link of the primary route, the backup shares no risk and no inner node
//!   with it in the whole network (`backup_beside`). A route that it finds can be followed from there (`followed`).
//! - `learnt_rows`: after a row came its link is known (`known`), and what the node keeps still fits (`fits`). Routes
//!   can still be asked, if the row may be learnt (`rows`).
//! - A node of a topology that learnt only its rows may learn each row of it (`may`), and then it still has only such
//!   rows (`stay`). By no message, item or tick does a node learn of a link (`others`).
//!
//! Tested: nothing, since the crate has no code but a type.
#![tactic(auto)]

pub mod inputs;
pub mod laws;

pub use inputs::Input;
pub use laws::{every_answer, learnt_rows, least_routes};

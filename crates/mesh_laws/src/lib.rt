//! The laws of the mesh: theorems over every network and every run of events from the start.
//!
//! - `every_run`, labels: one leg, or backups that record no common risk, take a label at a node (`labels`) or send it,
//!   over a topology (`sent`). Messages under way keep it so (`heard`). Of backups that use one label at a node at most
//!   one is activated, also of two that cross (`crossing`). No label is cross-connected for two LSPs (`safe`).
//! - A Live leg has its labels (`labelled`), and that of a two-way LSP its back labels (`backs`). Only a node that
//!   converts changes the label (`kept`, `wavelengths`).
//! - Calls fit their legs (`calls`), have a fitting cause (`tidy`), and are as ordered (`ordered`). A call that stands
//!   keeps its working LSP and its reserved backup until its release (`stand`, `until`). Until then it leaves guarded
//!   only if the working LSP is reported, and turned only if it isn't (`guarded`, `turned`).
//! - Each hop of an LSP has a shape of the table (`hops`). Calls that are set up are joined from end to end (`joined`).
//!   Backups share no risk with their primary (`beside`), and over a topology record its risks (`risks`).
//! - Nodes: reports are of the LSP's route (`reported`), known fibres come in (`known`), learnt rows are true
//!   (`learnt`). Over a topology routes can be asked (`searchable`), and messages are only between neighbours (`home`).
//! - Over a topology, work queues (desks) and Notifies tell what is down (`desks`, `reports`). Runs begin calm
//!   (`calm`). If since a calm state only one group failed, no activation is refused (`admitted`), and once quiet
//!   guarded calls go over fibres that are up (`restored`). Hit calls do so after as many sweeps as their routes give,
//!   if that state was quiet and nothing is posted since (`soon`, `in_order`).
//! - After as many sweeps as its route has hops, there and back, an LSP is answered (`answered`) and its call decided
//!   (`decided`). Over a topology each post and tick adds only so much to handle (`rests`, `ends`). If nothing can be
//!   handled, the mesh is quiet (`quiet`). Nearly all of this, and the laws below, are one word of one state
//!   (`together`, by `LawsHold`). By the lemma `laws_hold_so_far` they hold after each first part of a run.
//! - `no_contend`: over a topology, if only two groups fail since a calm, quiet state in which no calls would contend
//!   (`mesh`, by a survey `rows`), no activation is refused. No call may be set up, released or protected.
//! - `every_light`: light of one label on a fibre is of one LSP (`lit`), and each label is one of a link's (`of_link`).
//! - `every_rest`, once quiet: legs are those of calls (`rested`), and labels that are sent are taken (`taken`). Over a
//!   topology reports are true (`told`), and after all repairs no call is stuck (`repaired`).
//! - `every_order`: an order changes only its call (`others`) and that call's legs (`spared`). Backups go as given
//!   (`backed`), and torn legs have no label in (`torn`). A Path (`caused`) and an activation (`busy`) are refused only
//!   for a cause at the node. A stuck call with only its working LSP reported, which is tried again alone in a quiet
//!   mesh, turns exactly if no other activated backup uses a label of its backup (`retried`).
//! - `every_order`, over a topology: orders do what they say (`acts`). A new one-way, unprotected call is set up alone
//!   in a quiet mesh, over a given route that is up, with room and numbers for it. It stands exactly if the route has
//!   free wavelengths (`assigned`). A Resv (`lacks`) and a backup (`lone`) are refused only for a cause.
//! - `every_change`: calls move by a table (`moves`, `blocked`, `turned`), and causes have a source (`refused`,
//!   `coded`). Ticks count only in calls that wait (`counted`, `below`). A row that is learnt is known (`learnt`).
//! - `every_node`: which legs may take one label at one node by itself, under any messages, rows, alarms and ticks.
//!
//! Tested: nothing, since there is no code but the structs `Hit` and `Contend`.
//! Neither proved nor tested: that messages are ever taken or orders handled. The laws say only what comes of it.
#![tactic(auto)]

pub mod laws;
pub mod service;
pub mod survey;

pub use laws::{every_node, every_run, no_contend};
pub use service::{every_change, every_light, every_order, every_rest};
pub use survey::{CallNos, Contend, Hit};

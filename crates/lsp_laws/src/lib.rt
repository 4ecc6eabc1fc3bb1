//! What one node keeps whatever messages come to it, and what each LSP is along its route in every state of a run.
//!
//! The crate has definitions in specs/ and lemmas in proofs/, no code and no contract. mesh_laws states the definitions
//! as clauses of its laws. The lemmas of those that are named here are in this crate.
//!
//! - `NodeFacts`: what each node keeps in every state of a run. Each rule keeps it, under any message of any sender.
//! - `Chain`: what holds of an LSP along its route. Each event that is enabled keeps it, so each hop has a shape of the
//!   table (`HopFits`, `EveryHopHasAShape`).
//! - `EveryNodeSharesLawfully`: labels at one node by itself, under any messages, rows, alarms and ticks, and valid
//!   orders of its calls.
//! - `EveryLabelIsShared`, `EveryLiveLegIsLabelled`, `EveryLegHasBackLabels`, `EveryLegKeepsLabels`: labels of legs,
//!   there and back.
//! - `EveryCallFitsItsLegs`, `EveryReportIsOfItsRoute`: a call fits its legs, and what it has reported is of its
//!   routes.
//! - `EveryCallStands`, `EveryCallStandsUntilReleased`, `EveryGuardedCallStays`, `EveryTurnedCallStays`: what a call
//!   keeps over events.
//! - `EveryCallIsJoined`, `EveryCallKeepsItsWavelengths`: the LSPs of a call from end to end.
//! - `EveryLearntRowIsTrue`, `EveryNodeCanSearch`: what a node knows of links.
//! - `EveryBackupGoesBeside`, `EveryBackupRecordsItsRisks`: a backup's route, and the risks of its primary.
//!
//! Tested: nothing.
//!
//! Neither proved nor tested: that anything ever happens in a run.
#![tactic(auto)]

//! Runs of the mesh, worked out by the check: hops of LSPs, calls that turn and go back, and how a run becomes quiet.
//!
//! The crate has no code and no contract, and no crate waits for it. Each file of proofs/ has a network, the events of
//! a run, and what is seen of the mesh after them (`Scene`). A run that goes on from another tells only what is new.
//!
//! - A run for each row of the table of hops that a run with few events reaches. Its last state has a hop in that row.
//! - `Answered`, `Activating`, `GuardedCall`, `TurnedCall`: runs from which others go on. In those calls turn, go back,
//!   wait, are stuck, are tried again, are refused a backup or are released.
//! - `Restored`, `RestoredBothWays`, `RestoredShared`, `RestoredSrlg`: only one group fails, and the call that it hits
//!   is restored.
//! - `SixSweeps`: a call that needs as many sweeps as a hit call may need at most. It has turned after the sixth and
//!   not after the fifth. In order it has turned after the fourth and not after the third.
//! - `TwoAlone`, `SetUpAlone`, `RefusedCause`: what laws of mesh_laws say of two failures, of a setup and of a refusal.
//! - `SharedLabel`, `Contended`, `BusyAtOnce`: two backups that share a label, and what follows when both are
//!   activated.
//! - `BothWays`, `WayBackTaken`, `WayBackRefused`: a two-way call that turns, and labels for the way back that are
//!   taken.
//! - `OneNode`, `Surveyed`, `ComesToRest`: backups at one node, surveys of three tables, and how much a run handles
//!   until it is quiet.
//!
//! Tested: nothing.
//!
//! Neither proved nor tested: that other runs are like these. The laws say that.
#![tactic(auto)]

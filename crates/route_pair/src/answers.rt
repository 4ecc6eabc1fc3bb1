//! Pairs of routes, and why there is none.

use ason_base::ids::LinkId;
use route_least::{Found, Potentials};

/// A primary route and its backup.
pub struct Pair {
    pub primary: Found,
    pub backup: Found,
}

impl Drop for Pair {
    fn drop(self) {
        let Pair {
            primary: _,
            backup: _,
        } = self;
    }
}

/// Why there is no pair.
#[derive(Drop)]
pub enum PairFault {
    /// No walk joins the two nodes.
    NoPrimary(Potentials),
    /// No route is risk-disjoint from this least route and shares no inner node with it.
    NoBackup(Found),
    OutOfMemory,
}

/// Why a route has no backup.
#[derive(Clone, Copy, PartialEq, Eq, Drop)]
pub enum BackupFault {
    /// The first link of the route that has no row.
    Unknown(LinkId),
    /// No route is risk-disjoint from it and shares no inner node with it.
    NoBackup,
    OutOfMemory,
}

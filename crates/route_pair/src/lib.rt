//! A least route and its least backup, which is risk-disjoint from it and shares no inner node with it.
//!
//! - `pair`: the primary is the least route of all (`primary`). The backup is the least route that is risk-disjoint
//!   from it and shares no inner node with it (`backup`). Each has its potentials, which certify it. `NoPrimary` and
//!   `NoBackup` say that there is none (`fault`).
//! - `backup_for`: the same backup beside a given route (`found`), each of whose links has a row (`known`). `Unknown`
//!   names the first link without one (`fault`).
//! - Both ask that at most 64 nodes are ends (`ends`), that metrics are 1 to 65,535 (`metrics`), and that no link is in
//!   two rows (`links`).
//! - `pair_in` and `backup_in`: the same clauses, in a network that was prepared from the rows and serves many
//!   questions.
//!
//! Tested: node_tests find a least route and a pair. `tests/test_plans.py` has routes and backups over worked graphs,
//! of equal costs too, and none when there is no backup or no route. `tests/test_replays.py` has a link without a row.
#![tactic(auto)]

ghost use Rattle.std.specs.Prelude.{◌≡◌, None, IfErr, IfOk, OnOk};
ghost use Rattle.ason_base.specs.{Risks.unknown_link, Walks.{HaveDistinctLinks, HaveFewEnds, HaveMetrics}};
ghost use Rattle.route_least.specs.Network.{IsNetworkOf};
ghost use Rattle.route_pair.specs.Pairs.{IsBackupFault, IsBackupFound, IsFault, IsPairFault, IsPrimary, IsUnsharedFault};

pub mod answers;
mod bans;

pub use answers::{BackupFault, Pair, PairFault};
use ason_base::ids::{NodeId, OutOfMemory};
use ason_base::network::TeRow;
use ason_base::risks::{RiskFault, RiskSet};
use ason_base::steps::Steps;
use bans::{bans_of, no_rows};
use route_least::{Found, RouteFault, RouteNetwork};
use std::alloc::Global;

/// The least route between the two nodes, and the least one that is risk-disjoint from it and shares no inner node with it.
/// Metrics are 1 to 65,535, at most 64 nodes are ends of the rows, and no link is in two rows.
pub fn pair(alloc: Global, rows: &[TeRow], from: NodeId, to: NodeId) -> Result<Pair, PairFault>
    requires ends { HaveFewEnds rows.now }
    requires metrics { HaveMetrics rows.now }
    requires links { HaveDistinctLinks rows.now }
    ensures primary { IfOk result (λ pair. IsPrimary rows.now from to pair.primary) }
    ensures backup { IfOk result
        (λ pair. IsBackupFound rows.now pair.primary.route from to pair.backup) }
    ensures fault { IfErr result (λ fault. IsPairFault rows.now from to fault) }
{
    match RouteNetwork::new(alloc, rows) {
        Ok(network) => pair_in(alloc, &network, rows, from, to),
        Err(OutOfMemory) => Err(PairFault::OutOfMemory),
    }
}

/// The same in a network that was prepared from the rows.
pub fn pair_in(
    alloc: Global,
    network: &RouteNetwork,
    rows: &[TeRow],
    from: NodeId,
    to: NodeId,
) -> Result<Pair, PairFault>
    requires { IsNetworkOf rows.now network.now }
    ensures primary { IfOk result (λ pair. IsPrimary rows.now from to pair.primary) }
    ensures backup { IfOk result
        (λ pair. IsBackupFound rows.now pair.primary.route from to pair.backup) }
    ensures fault { IfErr result (λ fault. IsPairFault rows.now from to fault) }
{
    let primary = match primary_of(alloc, network, rows, (from, to)) {
        Ok(primary) => primary,
        Err(RouteFault::NoRoute(potential)) => return Err(PairFault::NoPrimary(potential)),
        Err(RouteFault::OutOfMemory) => return Err(PairFault::OutOfMemory),
    };
    match beside(alloc, network, rows, &primary.route, (from, to)) {
        Ok(backup) => Ok(Pair { primary, backup }),
        Err(RouteFault::NoRoute(_)) => Err(PairFault::NoBackup(primary)),
        Err(RouteFault::OutOfMemory) => Err(PairFault::OutOfMemory),
    }
}

// The least route of all.
fn primary_of(
    alloc: Global,
    network: &RouteNetwork,
    rows: &[TeRow],
    ends: (NodeId, NodeId),
) -> Result<Found, RouteFault>
    requires { IsNetworkOf rows.now network.now }
    ensures found { IfOk result (λ found. IsPrimary rows.now ends.0 ends.1 found) }
    ensures fault { IfErr result (λ fault. IsFault rows.now ends.0 ends.1 fault) }
{
    let closed = no_rows(alloc, rows.len())?;
    network.least(alloc, ends.0, ends.1, &closed, &[])
}

// The least route that is risk-disjoint from the primary one and shares no inner node with it.
fn beside(
    alloc: Global,
    network: &RouteNetwork,
    rows: &[TeRow],
    primary: &Steps,
    ends: (NodeId, NodeId),
) -> Result<Found, RouteFault>
    requires { IsNetworkOf rows.now network.now }
    ensures found { IfOk result (λ found. IsBackupFound rows.now primary.now ends.0 ends.1 found) }
    ensures none { IfErr result (λ fault. IsUnsharedFault rows.now primary.now ends.0 ends.1 fault) }
{
    let bans = bans_of(alloc, rows, primary, ends.0, ends.1)?;
    network.least(alloc, ends.0, ends.1, &bans.closed, bans.nodes.items())
}

/// The least route that is risk-disjoint from the primary route and shares no inner node with it.
/// Metrics are 1 to 65,535, at most 64 nodes are ends of the rows, and no link is in two rows.
pub fn backup_for(
    alloc: Global,
    rows: &[TeRow],
    primary: &Steps,
    from: NodeId,
    to: NodeId,
) -> Result<Found, BackupFault>
    requires ends { HaveFewEnds rows.now }
    requires metrics { HaveMetrics rows.now }
    requires links { HaveDistinctLinks rows.now }
    ensures found { IfOk result (λ found. IsBackupFound rows.now primary.now from to found) }
    ensures known { OnOk result (unknown_link rows.now primary.now ≡ None) }
    ensures fault { IfErr result (λ fault. IsBackupFault rows.now primary.now from to fault) }
{
    match RouteNetwork::new(alloc, rows) {
        Ok(network) => backup_in(alloc, &network, rows, primary, from, to),
        Err(OutOfMemory) => Err(BackupFault::OutOfMemory),
    }
}

/// The same in a network that was prepared from the rows.
pub fn backup_in(
    alloc: Global,
    network: &RouteNetwork,
    rows: &[TeRow],
    primary: &Steps,
    from: NodeId,
    to: NodeId,
) -> Result<Found, BackupFault>
    requires { IsNetworkOf rows.now network.now }
    ensures found { IfOk result (λ found. IsBackupFound rows.now primary.now from to found) }
    ensures known { OnOk result (unknown_link rows.now primary.now ≡ None) }
    ensures fault { IfErr result (λ fault. IsBackupFault rows.now primary.now from to fault) }
{
    match RiskSet::of(alloc, rows, primary) {
        Ok(_) => {}
        Err(RiskFault::Unknown(link)) => return Err(BackupFault::Unknown(link)),
        Err(RiskFault::OutOfMemory) => return Err(BackupFault::OutOfMemory),
    }
    match beside(alloc, network, rows, primary, (from, to)) {
        Ok(found) => Ok(found),
        Err(RouteFault::NoRoute(_)) => Err(BackupFault::NoBackup),
        Err(RouteFault::OutOfMemory) => Err(BackupFault::OutOfMemory),
    }
}

//! The routes that a node finds over the links that it knows.

ghost use Rattle.std.specs.{Prelude.{◌≡◌, false, IfOk, replicate}, Option.option_copied};
ghost use Rattle.mesh_nodes.specs.Routes.{AreSearchable};
ghost use Rattle.mesh_rules.specs.LeastRoutes.{least_trip};
ghost use Rattle.call_control.specs.Searches.{IsBackupFor, route_beside, steps_of};

use ason_base::{Leg, NodeId, OutOfMemory, Steps, TeRow};
use call_control::route_from;
use leg_table::NodeTables;
use route_least::{RouteFault, RouteNetwork};
use route_pair::{BackupFault, backup_for};
use std::alloc::Global;

fn no_rows(alloc: Global, count: usize) -> Result<Vec<bool>, OutOfMemory>
    ensures { IfOk result (λ closed. closed.items ≡ replicate count false) }
{
    let closed: Vec<bool> = vec![in alloc; false; count]?;
    Ok(closed)
}

/// The least route over these rows from the one node to the other: none exactly where no walk joins
/// them.
pub(crate) fn least_route(
    alloc: Global,
    rows: &[TeRow],
    from: NodeId,
    to: NodeId,
) -> Result<Option<Steps>, OutOfMemory>
    requires { AreSearchable rows.now }
    ensures { IfOk result (λ route. route ≡ steps_of (least_trip rows.now from to)) }
{
    let closed = no_rows(alloc, rows.len())?;
    let network = RouteNetwork::new(alloc, rows)?;
    match network.least(alloc, from, to, &closed, &[]) {
        Ok(found) => Ok(Some(found.route)),
        Err(RouteFault::NoRoute(_)) => Ok(None),
        Err(RouteFault::OutOfMemory) => Err(OutOfMemory),
    }
}

/// The least route over these rows that is risk-disjoint from the primary one and shares no inner
/// node with it: none exactly where there is none, or a link of the primary route has no row.
pub(crate) fn least_backup(
    alloc: Global,
    rows: &[TeRow],
    primary: &Steps,
    from: NodeId,
    to: NodeId,
) -> Result<Option<Steps>, OutOfMemory>
    requires { AreSearchable rows.now }
    ensures { IfOk result (λ route. route ≡ route_beside rows.now primary.now from to) }
{
    match backup_for(alloc, rows, primary, from, to) {
        Ok(found) => Ok(Some(found.route)),
        Err(BackupFault::Unknown(_)) => Ok(None),
        Err(BackupFault::NoBackup) => Ok(None),
        Err(BackupFault::OutOfMemory) => Err(OutOfMemory),
    }
}

/// The least backup route beside the LSP of this leg, where one is sought.
pub(crate) fn backup_beside(
    alloc: Global,
    tables: &NodeTables,
    sought: Option<&Leg>,
) -> Result<Option<Steps>, OutOfMemory>
    requires { AreSearchable tables.now.rows }
    ensures { IfOk result
        (λ route. IsBackupFor tables.now (option_copied sought.entry) route) }
{
    let Some(leg) = sought else {
        return Ok(None);
    };
    let primary = route_from(alloc, tables, leg)?;
    least_backup(alloc, tables.rows(), &primary, tables.node().id, leg.egress)
}

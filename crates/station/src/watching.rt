//! Who watches a station, and what it publishes.

ghost use Rattle.std.specs.Prelude.{◌≡◌, IfOk};
ghost use Rattle.station.specs.{Fits.{PartsFit, station_state}, Watched.table_of};

use crate::parts::Parts;
use ason_base::OutOfMemory;
use mgmt_view::NodeTable;
use std::alloc::Global;

/// Why a node isn't watched from now on.
#[derive(Clone, Copy, Drop)]
pub enum WatchFault {
    /// It has a viewer.
    Watched,
    OutOfMemory,
}

/// The legs of the node, after the whole of its log.
pub(crate) fn table_of(alloc: Global, parts: &Parts) -> Result<NodeTable, OutOfMemory>
    requires fit { PartsFit parts.now }
    ensures { IfOk result (λ t. t ≡ table_of (station_state parts.now)) }
{
    let rows = parts.controller.rows(alloc)?;
    Ok(NodeTable {
        entries: parts.log.len() as u64,
        legs: rows.legs,
    })
}

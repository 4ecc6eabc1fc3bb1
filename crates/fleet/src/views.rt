//! Views of nodes that are watched, beside the rounds.

ghost use Rattle.std.specs.{Prelude.{◌≡◌, IfOk, OnOk, is_some, map, position}, List.AllZip};
ghost use Rattle.station.specs.Watched.{publishing, tables_by};
ghost use Rattle.fleet.specs.{Commands.is_seat, Views.{HasStation, MayPublish, WatchesAt, publisher_of}};

use crate::fleet::Fleet;
use crate::posts::place_of;
use ason_base::{NodeId, OutOfMemory};
use mgmt_view::{Told, Viewer};
use station::{Station, WatchFault};
use std::sync::Wait;

/// Each station that is watched publishes its table, in order, up to the first for which memory is wanting.
pub(crate) fn publish_all<R: Wait>(rt: &R, stations: &mut [Station]) -> Result<(), OutOfMemory>
    ensures ok { OnOk result (stations.new ≡ map publishing stations.old) }
    ensures may { AllZip MayPublish stations.old stations.new }
{
    for station in stations.iter_mut() {
        station.publish(rt)?;
    }
    Ok(())
}

impl Fleet {
    /// Whether the node has a station.
    pub fn has(&self, node: NodeId) -> bool
        ensures { result ≡ is_some (position (is_seat node) self.now.seats) }
    {
        place_of(&self.seats, node).is_some()
    }

    /// From now on the node is watched: its table is published, and the viewer keeps it. It may wait for the viewer.
    /// It is refused exactly where the node is watched, or memory is wanting.
    pub fn watch<R: Wait>(&mut self, rt: &R, node: NodeId) -> Result<Viewer, WatchFault>
        requires { HasStation node self.old }
        ensures { WatchesAt node result self.old self.new }
    {
        match place_of(&self.seats, node) {
            None => unreachable!(),
            Some(place) => self.stations[place].watch(rt),
        }
    }

    /// A token of all that was published of the node, if it is watched.
    pub fn told(&mut self, node: NodeId) -> Result<Option<Told>, OutOfMemory>
        ensures told { IfOk result (λ told. told ≡ tables_by (publisher_of node self.old)) }
        ensures same { self.new ≡ self.old }
    {
        match place_of(&self.seats, node) {
            None => Ok(None),
            Some(place) => self.stations[place].told(),
        }
    }
}

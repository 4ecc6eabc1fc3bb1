//! The stations of a network, made and joined.

ghost use Rattle.std.specs.Prelude.{◌≡◌, ◌+◌, ◌<◌, IfOk, IsSome, OnErr, OnOk, length};
ghost use Rattle.ason_base.specs.Network.{find_node};
ghost use Rattle.fleet.specs.{Joining.{AreJoinedAt, AreNew, AreNewUpTo, HasMore, MayBeJoined, joined_up_to}, Views.{AreUnwatched, publishers_of}};

use ason_base::{NodeId, OutOfMemory, Topology};
use station::Station;
use std::alloc::Global;

// Joins two stations.
fn join(alloc: Global, stations: &mut [Station], low: usize, high: usize) -> Result<(), OutOfMemory>
    requires order { low < high }
    requires may { MayBeJoined stations.old low high }
    ensures joined { OnOk result (AreJoinedAt low high stations.old stations.new) }
    ensures publishers { publishers_of stations.new ≡ publishers_of stations.old }
{
    let (before, after) = stations.split_at_mut(high);
    Station::connect(alloc, &mut before[low], &mut after[0])
}

// Joins two stations where their nodes are neighbours.
fn join_neighbours(
    alloc: Global,
    t: &Topology,
    stations: &mut [Station],
    low: usize,
    high: usize,
) -> Result<(), OutOfMemory>
    requires order { low < high }
    requires within { high < length stations.old }
    requires new { AreNewUpTo t.now (joined_up_to high low) stations.old }
    ensures new { OnOk result (AreNewUpTo t.now (joined_up_to high (low + 1)) stations.new) }
    ensures publishers { publishers_of stations.new ≡ publishers_of stations.old }
{
    let nodes = t.nodes();
    if t.is_channel(nodes[low].id, nodes[high].id) {
        join(alloc, stations, low, high)?;
    }
    Ok(())
}

// Joins the station at this place to those of its neighbours that stand before it.
fn join_back(
    alloc: Global,
    t: &Topology,
    stations: &mut [Station],
    place: usize,
) -> Result<(), OutOfMemory>
    requires within { place < length stations.old }
    requires new { AreNewUpTo t.now (joined_up_to place 0) stations.old }
    ensures new { OnOk result (AreNewUpTo t.now (joined_up_to (place + 1) 0) stations.new) }
    ensures publishers { publishers_of stations.new ≡ publishers_of stations.old }
{
    for low in 0..place {
        join_neighbours(alloc, t, stations, low, place)?;
    }
    Ok(())
}

// Joins the stations of all neighbours.
fn join_all(alloc: Global, t: &Topology, stations: &mut [Station]) -> Result<(), OutOfMemory>
    requires { AreNewUpTo t.now (joined_up_to 0 0) stations.old }
    ensures new { OnOk result (AreNew t.now stations.new) }
    ensures publishers { publishers_of stations.new ≡ publishers_of stations.old }
{
    for place in 0..stations.len() {
        join_back(alloc, t, stations, place)?;
    }
    Ok(())
}

// Puts the new station of a node at the end.
fn add_station(
    alloc: Global,
    t: &Topology,
    id: NodeId,
    stations: &mut Vec<Station>,
) -> Result<(), OutOfMemory>
    requires { IsSome (find_node t.now id) }
    ensures ok { OnOk result (HasMore t.now id stations.old.items stations.new.items) }
    ensures err { OnErr result (stations.new.items ≡ stations.old.items) }
{
    let station = Station::new(alloc, t, id)?;
    match stations.push(station) {
        Ok(()) => Ok(()),
        Err(refused) => {
            refused.value.unmake();
            Err(OutOfMemory)
        }
    }
}

/// Uses up stations that aren't watched.
pub(crate) fn unmake_all(mut stations: Vec<Station>)
    requires { AreUnwatched stations.items }
{
    while let Some(station) = stations.pop() {
        station.unmake();
    }
    stations.destroy_empty();
}

// A station for each node, in order of number, without links.
fn single_stations(alloc: Global, t: &Topology) -> Result<Vec<Station>, OutOfMemory>
    ensures new { IfOk result (λ v. AreNewUpTo t.now (joined_up_to 0 0) v.items) }
    ensures unwatched { IfOk result (λ v. AreUnwatched v.items) }
{
    let mut stations = Vec::new(alloc);
    for node in t.nodes() {
        match add_station(alloc, t, node.id, &mut stations) {
            Ok(()) => {}
            Err(refused) => {
                unmake_all(stations);
                return Err(refused);
            }
        }
    }
    Ok(stations)
}

/// A station for each node, in order of number. Its links stand in the order of its neighbours.
pub(crate) fn new_stations(alloc: Global, t: &Topology) -> Result<Vec<Station>, OutOfMemory>
    ensures new { IfOk result (λ v. AreNew t.now v.items) }
    ensures unwatched { IfOk result (λ v. AreUnwatched v.items) }
{
    let mut stations = single_stations(alloc, t)?;
    match join_all(alloc, t, &mut stations) {
        Ok(()) => Ok(stations),
        Err(refused) => {
            unmake_all(stations);
            Err(refused)
        }
    }
}

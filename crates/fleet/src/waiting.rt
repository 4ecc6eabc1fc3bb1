//! What waits at stations, and what a table shows of them.

ghost use Rattle.std.specs.{Prelude.{◌≡◌, ◌≤◌, ◌<◌, ◌↔◌, ◌^◌, ◌++◌, [], IfOk, IsTrue, List, OnOk, length, flat_map, sum_by}, List.{AllByRecursion, list_all}};
ghost use Rattle.ason_base.specs.{declared.commands.Disturb.Disturb, Network.Network};
ghost use Rattle.mesh_rules.specs.Rows.{all_call_rows, all_leg_rows};
ghost use Rattle.world_rules.specs.Images.{image};
ghost use Rattle.round_rules.specs.{Records.{Record, world_of}, Waiting.{is_world_quiet, items_waiting, rows_waiting, unacked_waiting}};
ghost use Rattle.fleet.specs.{Standing.StandsFor, Waiting.{call_rows_of, has_nothing, leg_rows_of, rows_due_of, unacked_of}};

use crate::fleet::{Fleet, FleetPending};
use ason_base::{CallRow, CallRows, LegRow, LegRows, OutOfMemory, TableRows};
use station::Station;
use std::alloc::Global;

// Whether its desk is empty and all that it sent is acknowledged.
fn has_nothing(station: &Station) -> bool
    ensures { result ≡ has_nothing station.now }
{
    let pending = station.controller().pending();
    station.desk_len() == 0 && pending.hop == 0 && pending.flood == 0
}

// Whether every desk is empty and all that was sent is acknowledged.
fn are_quiet(stations: &[Station]) -> bool
    ensures { result ≡ list_all has_nothing stations.now }
{
    for station in stations {
        if !has_nothing(station) {
            return false;
        }
    }
    true
}

// How many items wait on all desks. A sum that doesn't fit is the most that does.
fn items_of(stations: &[Station]) -> usize
    ensures { sum_by (λ s. length s.desk) stations.now < 2 ^ 64 →
        result ≡ sum_by (λ s. length s.desk) stations.now }
{
    let mut sum: usize = 0;
    for station in stations {
        sum = sum.saturating_add(station.desk_len());
    }
    sum
}

// How many messages aren't acknowledged. A sum that doesn't fit is the most that does.
fn unacked_of(stations: &[Station]) -> usize
    ensures few { AllByRecursion (λ s. unacked_of s ≤ 2 ^ 40) stations.now }
    ensures sum { sum_by unacked_of stations.now < 2 ^ 64 →
        result ≡ sum_by unacked_of stations.now }
{
    let mut sum: usize = 0;
    for station in stations {
        sum = sum.saturating_add(station.controller().pending().hop);
    }
    sum
}

// How many rows aren't acknowledged, to each neighbour to which they are due. A sum that doesn't fit is the most that
// does.
fn rows_due_of(stations: &[Station]) -> usize
    ensures few { AllByRecursion (λ s. rows_due_of s ≤ 2 ^ 40) stations.now }
    ensures sum { sum_by rows_due_of stations.now < 2 ^ 64 →
        result ≡ sum_by rows_due_of stations.now }
{
    let mut sum: usize = 0;
    for station in stations {
        sum = sum.saturating_add(station.controller().pending().flood);
    }
    sum
}

// What a table shows of the station, at the end of these lists.
fn add_rows(
    alloc: Global,
    station: &Station,
    calls: &mut Vec<CallRow>,
    legs: &mut Vec<LegRow>,
) -> Result<(), OutOfMemory>
    ensures calls { OnOk result (calls.new.items ≡ calls.old.items ++ call_rows_of station.now) }
    ensures legs { OnOk result (legs.new.items ≡ legs.old.items ++ leg_rows_of station.now) }
{
    let rows = station.controller().rows(alloc)?;
    calls.extend_from_slice(rows.calls.items())?;
    legs.extend_from_slice(rows.legs.items())?;
    Ok(())
}

// What a table shows of the stations, one after the other.
fn rows_of(alloc: Global, stations: &[Station]) -> Result<TableRows, OutOfMemory>
    ensures calls { IfOk result (λ rows. rows.calls ≡ flat_map call_rows_of stations.now) }
    ensures legs { IfOk result (λ rows. rows.legs ≡ flat_map leg_rows_of stations.now) }
{
    let mut calls = Vec::new(alloc);
    let mut legs = Vec::new(alloc);
    for station in stations {
        add_rows(alloc, station, &mut calls, &mut legs)?;
    }
    let calls = CallRows::from_vec(calls);
    let legs = LegRows::from_vec(legs);
    Ok(TableRows { calls, legs })
}

impl Fleet {
    /// Whether every desk is empty, and no message and no row of a link is unacknowledged.
    pub fn quiet(&self) -> bool
        ensures { (t : Network) (lines : List Disturb) (r : Record) → StandsFor t lines self.now r →
            result ≡ is_world_quiet t (world_of t r) }
    {
        are_quiet(&self.stations)
    }

    /// Whether no group is failed now.
    pub fn unfailed(&self) -> bool
        ensures { IsTrue result ↔ (self.now.failed ≡ []) }
    {
        self.failed.is_empty()
    }

    /// What waits at all nodes.
    pub fn pending(&self) -> FleetPending
        ensures desk { (t : Network) (lines : List Disturb) (r : Record) →
            StandsFor t lines self.now r → result.desk ≡ items_waiting t (world_of t r) }
        ensures hop { (t : Network) (lines : List Disturb) (r : Record) →
            StandsFor t lines self.now r → result.hop ≡ unacked_waiting t (world_of t r) }
        ensures flood { (t : Network) (lines : List Disturb) (r : Record) →
            StandsFor t lines self.now r → result.flood ≡ rows_waiting t (world_of t r) }
    {
        FleetPending {
            desk: items_of(&self.stations),
            hop: unacked_of(&self.stations),
            flood: rows_due_of(&self.stations),
        }
    }

    /// What a table shows of each node, nodes in order of number.
    pub fn rows(&self, alloc: Global) -> Result<TableRows, OutOfMemory>
        ensures calls { IfOk result (λ rows. (t : Network) (lines : List Disturb) (r : Record) →
            StandsFor t lines self.now r → rows.calls ≡ all_call_rows t (image (world_of t r))) }
        ensures legs { IfOk result (λ rows. (t : Network) (lines : List Disturb) (r : Record) →
            StandsFor t lines self.now r → rows.legs ≡ all_leg_rows t (image (world_of t r))) }
    {
        rows_of(alloc, &self.stations)
    }
}

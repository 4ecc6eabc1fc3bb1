//! Rounds of a fleet.

ghost use Rattle.std.specs.{Prelude.{◌≡◌, ◌<◌, ◌≤◌, length, position}, List.list_any, Thread.IsSync};
ghost use Rattle.ason_base.specs.declared.limits.TheConstants.{MOST_NODES};
ghost use Rattle.round_rules.specs.Turned.{is_at_limit, is_starved};
ghost use Rattle.fleet.specs.{Connections.AreSettled, RoundLaws.RoundLaws, Turning.{HaveTurned, MakesTurns, RoundsOf, TurnsAt, fault_after, fault_of, front_len, line_count, was_at_limit, was_starved}, Views.publishers_of};

use crate::fleet::RoundFault;
use crate::looks::{look_after, look_all};
use crate::seats::Seat;
use ason_base::NodeId;
use ason_io::Gate;
use round_rules::{Turn, every_clock, every_look, every_round, every_worker};
use station::Station;
use std::thread::{Threads, join_mut};
use world_merge::every_merge;

// What the laws of looks, turns and rounds say.
fn round_laws()
    ensures { RoundLaws }
{
    every_look();
    every_round();
    every_worker();
    every_clock();
    every_merge();
}

// Whether memory was wanting in the station's last turn.
fn is_starved(station: &Station) -> bool
    ensures { result ≡ is_starved station.now.answer }
{
    match station.answer() {
        Turn::Starved => true,
        Turn::Worked(_) | Turn::Idle | Turn::AtLimit => false,
    }
}

// Whether the station's last turn ended at its limit.
fn is_at_limit(station: &Station) -> bool
    ensures { result ≡ is_at_limit station.now.answer }
{
    match station.answer() {
        Turn::AtLimit => true,
        Turn::Worked(_) | Turn::Idle | Turn::Starved => false,
    }
}

// Whether memory was wanting at some station.
fn any_starved(stations: &[Station]) -> bool
    ensures { result ≡ list_any was_starved stations.now }
{
    for station in stations {
        if is_starved(station) {
            return true;
        }
    }
    false
}

// The place of the first station at its limit.
fn first_at_limit(stations: &[Station]) -> Option<usize>
    ensures { result ≡ position was_at_limit stations.now }
{
    for place in 0..stations.len() {
        if is_at_limit(&stations[place]) {
            return Some(place);
        }
    }
    None
}

// The fault that ended the turns of some station, if one did: want of memory before a limit, and of the nodes at their
// limit the least.
fn fault_of(seats: &[Seat], stations: &[Station]) -> Option<RoundFault>
    ensures { result ≡ fault_of seats.now stations.now }
{
    if any_starved(stations) {
        return Some(RoundFault::Starved);
    }
    let Some(place) = first_at_limit(stations) else {
        return None;
    };
    match seats.get(place) {
        Some(seat) => Some(RoundFault::AtLimit(seat.id)),
        None => None,
    }
}

// How many lines all logs have.
fn line_count(stations: &[Station]) -> u64
    requires { length stations.now ≤ MOST_NODES }
    ensures { result ≡ line_count stations.now }
{
    let mut lines = 0;
    for station in stations {
        lines += station.made();
    }
    lines
}

// Each station makes so many turns.
fn turn_each<G: Gate>(stations: &mut [Station], stride: u32, gate: &G)
    requires { 0 < stride }
    ensures turned { HaveTurned stride stations.old stations.new }
    ensures publishers { publishers_of stations.new ≡ publishers_of stations.old }
{
    for place in 0..stations.len() {
        stations[place].turns(gate, stride);
    }
}

// How many of the stations the first of the threads have, so many of all: each has as many as another, or one more.
fn front_len(stations: usize, threads: usize, first: usize) -> usize
    requires some { 0 < threads }
    requires first { first ≤ threads }
    ensures exact { result ≡ front_len stations threads first }
    ensures within { result ≤ stations }
{
    stations / threads * first + (stations % threads).min(first)
}

// Each station makes so many turns, on so many threads, or as many as there are stations, if these are fewer. A thread
// has stations that follow each other, as many as each other one has, or one more.
#[cycle(shares)]
fn turn_all<R: Threads + Sync, G: Gate>(
    rt: &R,
    workers: usize,
    stride: u32,
    gate: &G,
    stations: &mut [Station],
)
    requires { 0 < stride }
    ensures turned { HaveTurned stride stations.old stations.new }
    ensures publishers { publishers_of stations.new ≡ publishers_of stations.old }
{
    let threads = workers.min(stations.len());
    if threads < 2 {
        turn_each(stations, stride, gate);
        return;
    }
    let low = threads / 2;
    let high = threads - low;
    let (front, back) = stations.split_at_mut(front_len(stations.len(), threads, low));
    join_mut(
        rt,
        &mut ||
            requires { IsSync R.row × IsSync G.row × (0 < stride) }
            ensures { HaveTurned stride front.entry.now front.exit.now
                × (publishers_of front.exit.now ≡ publishers_of front.entry.now) }
        { turn_all(rt, low, stride, gate, front) },
        &mut ||
            requires { IsSync R.row × IsSync G.row × (0 < stride) }
            ensures { HaveTurned stride back.entry.now back.exit.now
                × (publishers_of back.exit.now ≡ publishers_of back.entry.now) }
        { turn_all(rt, high, stride, gate, back) },
    );
}

/// A round on so many threads. All rings are looked at after it.
pub(crate) fn round_on_threads<R: Threads + Sync, G: Gate>(
    rt: &R,
    seats: &[Seat],
    stations: &mut [Station],
    workers: usize,
    stride: u32,
    gate: &G,
) -> Result<u64, RoundFault>
    requires settled { AreSettled seats.now stations.old }
    requires workers { 2 ≤ workers }
    requires stride { 0 < stride }
    ensures rounds { RoundsOf workers seats.now stations.old stations.new result }
    ensures settled { AreSettled seats.now stations.new }
    ensures publishers { publishers_of stations.new ≡ publishers_of stations.old }
{
    round_laws();
    let before = line_count(stations);
    turn_all(rt, workers, stride, gate, stations);
    let fault = fault_of(seats, stations);
    look_all(seats, stations);
    match fault {
        Some(fault) => Err(fault),
        None => Ok(line_count(stations) - before),
    }
}

// How the turns of this node end a round, if they do.
fn fault_after(end: Turn, node: NodeId) -> Option<RoundFault>
    ensures { result ≡ fault_after end node }
{
    match end {
        Turn::Worked(_) | Turn::Idle => None,
        Turn::AtLimit => Some(RoundFault::AtLimit(node)),
        Turn::Starved => Some(RoundFault::Starved),
    }
}

// A station makes its turns.
fn turn_one<G: Gate>(
    station: &mut Station,
    node: NodeId,
    stride: u32,
    gate: &G,
) -> Option<RoundFault>
    requires { 0 < stride }
    ensures turns { MakesTurns stride station.old station.new }
    ensures fault { result ≡ fault_after station.new.answer node }
    ensures publisher { station.new.publisher ≡ station.old.publisher }
{
    station.turns_alone(gate, stride);
    fault_after(station.answer(), node)
}

// The station at this place makes its turns. Its rings are looked at after them, where it used one of them.
fn turn_at<G: Gate>(
    seats: &[Seat],
    stations: &mut [Station],
    place: usize,
    stride: u32,
    gate: &G,
) -> Option<RoundFault>
    requires settled { AreSettled seats.now stations.old }
    requires within { place < length seats.now }
    requires stride { 0 < stride }
    ensures turns { TurnsAt seats.now place stride stations.old stations.new result }
    ensures settled { AreSettled seats.now stations.new }
    ensures publishers { publishers_of stations.new ≡ publishers_of stations.old }
{
    let fault = turn_one(&mut stations[place], seats[place].id, stride, gate);
    look_after(seats, stations, place);
    fault
}

/// A round with one worker: the stations make their turns in order of node number, up to the first that doesn't come to
/// its end.
pub(crate) fn round_in_order<G: Gate>(
    seats: &[Seat],
    stations: &mut [Station],
    stride: u32,
    gate: &G,
) -> Result<u64, RoundFault>
    requires settled { AreSettled seats.now stations.old }
    requires stride { 0 < stride }
    ensures rounds { RoundsOf 1 seats.now stations.old stations.new result }
    ensures settled { AreSettled seats.now stations.new }
    ensures publishers { publishers_of stations.new ≡ publishers_of stations.old }
{
    round_laws();
    let before = line_count(stations);
    for place in 0..seats.len() {
        if let Some(fault) = turn_at(seats, stations, place, stride, gate) {
            return Err(fault);
        }
    }
    Ok(line_count(stations) - before)
}

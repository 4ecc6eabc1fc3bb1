//! Lines that name a frame, bytes that spell nothing, and full logs.

ghost use Rattle.std.specs.Prelude.{◌≡◌, ◌==◌, ◌≤◌, ◌<◌, ◌*◌, ◌^◌, IfSome, OnErr, OnOk, false, length, true};
ghost use Rattle.ason_base.specs.declared.limits.TheConstants.{MOST_AHEAD};
ghost use Rattle.flood.specs.Frames.{SpellsNothing};
ghost use Rattle.world_rules.specs.WorldRuns.{is_world_channel};
ghost use Rattle.fleet.specs.{Commands.{Disturbs, Noises, is_log_full}, Noises.{HasLine, Hears, sent_on}, Views.{ShowNoiseMore, shown_by}};
ghost use Rattle.station.specs.Watched.{ShowsNoiseMore};

use crate::fleet::Fleet;
use crate::posts::place_of;
use crate::seats::Seat;
use ason_base::limits::MOST_EVENTS;
use ason_base::{Disturb, NodeId, OutOfMemory};
use station::Station;

// How many frames were sent on a channel, if it is one of these stations.
fn sent_on(seats: &[Seat], stations: &[Station], from: NodeId, to: NodeId) -> Option<u64>
    requires { length stations.now ≡ length seats.now }
    ensures sent { result ≡ sent_on seats.now stations.now from to }
    ensures few { IfSome result (λ k. k ≤ MOST_EVENTS * 2 ^ 40) }
{
    let place = place_of(seats, from)?;
    let station = &stations[place];
    let link = station.link_to(to)?;
    Some(station.sent_to(link))
}

// The line goes to the station at this place.
fn put_line(stations: &mut [Station], place: usize, line: Disturb) -> Result<(), OutOfMemory>
    requires { place < length stations.old }
    ensures ok { OnOk result (HasLine line place stations.old stations.new) }
    ensures err { OnErr result (stations.new ≡ stations.old) }
    ensures shown { shown_by stations.new ≡ shown_by stations.old }
{
    stations[place].disturb(line)
}

// Bytes that spell nothing come to the station, if the node that sent them is a neighbour.
fn hear(station: &mut Station, from: NodeId, bytes: &[u8]) -> Result<(), OutOfMemory>
    requires nothing { SpellsNothing bytes.now }
    requires room { (length station.old.log == MOST_EVENTS) ≡ false }
    ensures ok { OnOk result (Hears from bytes.now station.old station.new) }
    ensures err { OnErr result (station.new ≡ station.old) }
    ensures links { station.new.links ≡ station.old.links }
    ensures shown { ShowsNoiseMore station.old station.new }
{
    if station.made() == MOST_EVENTS || station.clock() == u64::MAX {
        return Err(OutOfMemory);
    }
    match station.link_to(from) {
        None => Ok(()),
        Some(_) => station.noise(from, bytes),
    }
}

impl Fleet {
    /// A line names the k-th frame from now on of a channel, which is to be lost, repeated or held.
    pub fn disturb(&mut self, line: &Disturb) -> Result<(), OutOfMemory>
        requires near { is_world_channel self.old.network line.now.from line.now.to ≡ true }
        requires few { line.now.k ≤ MOST_AHEAD }
        ensures on { OnOk result (Disturbs line.now self.old self.new) }
        ensures err { OnErr result (self.new ≡ self.old) }
        ensures shown { shown_by self.new.stations ≡ shown_by self.old.stations }
    {
        let sent = sent_on(&self.seats, &self.stations, line.from, line.to);
        match (sent, place_of(&self.seats, line.to)) {
            (Some(sent), Some(place)) => {
                let named = Disturb {
                    k: sent + line.k,
                    ..*line
                };
                put_line(&mut self.stations, place, named)
            }
            _ => Ok(()),
        }
    }

    /// Whether the log of this node has its 50,000 lines.
    pub fn full(&self, node: NodeId) -> bool
        ensures { result ≡ is_log_full node self.now }
    {
        match place_of(&self.seats, node) {
            None => false,
            Some(place) => self.stations[place].made() == MOST_EVENTS,
        }
    }

    /// Bytes that spell nothing come from one node to a neighbour.
    pub fn noise(&mut self, from: NodeId, to: NodeId, bytes: &[u8]) -> Result<(), OutOfMemory>
        requires near { is_world_channel self.old.network from to ≡ true }
        requires nothing { SpellsNothing bytes.now }
        requires room { is_log_full to self.old ≡ false }
        ensures on { OnOk result (Noises from to bytes.now self.old self.new) }
        ensures err { OnErr result (self.new ≡ self.old) }
        ensures shown { ShowNoiseMore self.old.stations self.new.stations }
    {
        match place_of(&self.seats, to) {
            None => Ok(()),
            Some(place) => hear(&mut self.stations[place], from, bytes),
        }
    }
}

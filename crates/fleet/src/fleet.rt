//! The stations of a network, on threads.

ghost use Rattle.std.specs.Prelude.{◌≡◌, ◌≤◌, [], IfOk};
ghost use Rattle.ason_base.specs.declared.limits.TheConstants.{MOST_TURNS, MOST_WORKERS};
ghost use Rattle.round_rules.specs.Records.{new_record};
ghost use Rattle.fleet.specs.{Rounds.Rounds, Standing.StandsFor, Views.{AreUnwatched, Publishes, publishers_of}};

use crate::joining::{new_stations, unmake_all};
use crate::looks::look_all;
use crate::rounds::{round_in_order, round_on_threads};
use crate::seats::{Seat, new_seats};
use crate::views::publish_all;
use ason_base::{Copied, Entry, Group, NodeId, OutOfMemory, Topology};
use ason_io::Gate;
use round_rules::{every_command, every_look, every_start};
use station::Station;
use std::alloc::Global;
use std::marker::Model;
use std::sync::Wait;
use std::thread::Threads;

/// Why a round ends before its end.
#[derive(Clone, Copy, Debug, PartialEq, Eq, Drop)]
pub enum RoundFault {
    /// The log of this node is full, and an input is at hand there: the least such node.
    AtLimit(NodeId),
    /// Memory is wanting.
    Starved,
}

/// How much waits.
#[derive(Clone, Copy, PartialEq, Eq, Drop)]
pub struct FleetPending {
    /// Items on desks.
    pub desk: usize,
    /// Messages that aren't acknowledged.
    pub hop: usize,
    /// Rows of links that aren't acknowledged, to each neighbour to which they are due.
    pub flood: usize,
}

/// The stations of a network in order of node number, what was posted, and the groups that have failed. Each ring is
/// looked at after the turns that may have used it, so none has to be before the next turns. It isn't let go but by
/// `end`, since a station of a node that is watched isn't.
pub struct Fleet {
    pub(crate) alloc: Global,
    pub(crate) seats: Vec<Seat>,
    pub(crate) stations: Vec<Station>,
    pub(crate) posts: Vec<Entry>,
    pub(crate) network: Topology,
    pub(crate) failed: Vec<Group>,
}

impl Model for Fleet {
    ghost use Rattle.fleet.specs.Connections.{AreSettled};
    ghost use Rattle.fleet.specs.Standing.{FleetState};

    ghost Value = { FleetState };

    ghost view = { λ f. record {
      seats = f.seats.items;
      stations = f.stations.items;
      posts = f.posts.items;
      network = f.network;
      failed = f.failed.items;
    } };

    ghost invariant = { λ f. AreSettled f.seats.items f.stations.items };
}

impl Fleet {
    /// The fleet of a network, in which nothing was done and nothing has failed.
    pub fn new(alloc: Global, t: &Topology) -> Result<Fleet, OutOfMemory>
        ensures stands { IfOk result (λ f. StandsFor t.now [] f new_record) }
        ensures unwatched { IfOk result (λ f. AreUnwatched f.stations) }
    {
        every_start();
        every_look();
        let network = t.copy(alloc)?;
        let mut stations = new_stations(alloc, t)?;
        match new_seats(alloc, t, &stations) {
            Ok(seats) => {
                look_all(&seats, &mut stations);
                Ok(Fleet {
                    alloc,
                    seats,
                    stations,
                    posts: Vec::new(alloc),
                    network,
                    failed: Vec::new(alloc),
                })
            }
            Err(refused) => {
                unmake_all(stations);
                Err(refused)
            }
        }
    }

    // The turns of a round.
    fn make_round<R: Threads + Sync, G: Gate>(
        &mut self,
        rt: &R,
        workers: usize,
        stride: u32,
        gate: &G,
    ) -> Result<u64, RoundFault>
        requires workers { (1 ≤ workers) × (workers ≤ MOST_WORKERS) }
        requires stride { (1 ≤ stride) × (stride ≤ MOST_TURNS) }
        ensures rounds { Rounds workers self.old self.new result }
        ensures publishers { publishers_of self.new.stations ≡ publishers_of self.old.stations }
    {
        if workers == 1 {
            round_in_order(&self.seats, &mut self.stations, stride, gate)
        } else {
            round_on_threads(rt, &self.seats, &mut self.stations, workers, stride, gate)
        }
    }

    /// A round: each station makes `stride` turns, the first with a tick, on so many worker threads, and takes at least
    /// what stood in its rings. With one worker the stations go in order of node number. With Ok so many lines were
    /// written in the logs. After a fault more rounds may be made. Once all workers are done each watched node
    /// publishes its table, and may wait for its viewer.
    pub fn round<R: Threads + Wait + Sync, G: Gate>(
        &mut self,
        rt: &R,
        workers: usize,
        stride: u32,
        gate: &G,
    ) -> Result<u64, RoundFault>
        requires workers { (1 ≤ workers) × (workers ≤ MOST_WORKERS) }
        requires stride { (1 ≤ stride) × (stride ≤ MOST_TURNS) }
        ensures rounds { Rounds workers self.old self.new result }
        ensures publishes { Publishes result self.old self.new }
    {
        every_command();
        let made = self.make_round(rt, workers, stride, gate);
        let told = publish_all(rt, &mut self.stations);
        match told {
            Ok(()) => made,
            Err(_) => Err(RoundFault::Starved),
        }
    }

    /// Ends it. It may wait for each viewer.
    pub fn end<R: Wait>(self, rt: &R) {
        let Fleet {
            alloc: _,
            seats: _,
            mut stations,
            posts: _,
            network: _,
            failed: _,
        } = self;
        while let Some(station) = stations.pop() {
            station.end(rt);
        }
        stations.destroy_empty();
    }
}

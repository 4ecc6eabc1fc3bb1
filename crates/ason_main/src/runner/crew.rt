//! On what threads and how many workers rounds are made, and how, and who reads beside them.

ghost use Rattle.std.specs.Prelude.{◌≡◌, ◌≤◌};
ghost use Rattle.ason_base.specs.declared.limits.TheConstants.{MOST_TURNS, MOST_WORKERS};
ghost use Rattle.fleet.specs.{Rounds.Rounds, Views.Publishes};
ghost use Rattle.ason_main.specs.Running.{MakesRound};

use ason_io::Gate;
use fleet::{Fleet, RoundFault};
use mgmt_view::Viewer;
use std::alloc::Global;
use std::cell::Cell;
use std::marker::Model;
use std::sync::Wait;
use std::thread::{Threads, join_mut};

/// On what threads and how many workers rounds are made, how many turns each station makes in a round, the gate before
/// the entries of its log, whether tables and what is unsettled are printed, and who reads a node's table beside the
/// rounds, if somebody does.
#[derive(Drop)]
pub struct Crew<'a, R: Threads + Wait + Sync, G: Gate> {
    rt: &'a R,
    alloc: Global,
    gate: &'a G,
    workers: usize,
    stride: u32,
    tables: bool,
    viewer: Cell<Option<&'a mut Viewer>>,
}

impl<'a, R: Threads + Wait + Sync, G: Gate> Model for Crew<'a, R, G> {
    ghost use Rattle.ason_base.specs.declared.limits.TheConstants.{MOST_TURNS, MOST_WORKERS};
    ghost use Rattle.std.specs.Prelude.{◌≤◌};
    ghost use Rattle.script_rules.specs.Outputs.{How};

    ghost Value = { How };

    ghost view = { λ c. record { workers = c.workers; tables = c.tables } };

    ghost invariant = { λ c. (1 ≤ c.workers) × (c.workers ≤ MOST_WORKERS) × (1 ≤ c.stride) ×
        (c.stride ≤ MOST_TURNS) };
}

// A round of the fleet.
fn turn<R: Threads + Wait + Sync, G: Gate>(
    rt: &R,
    gate: &G,
    workers: usize,
    stride: u32,
    fleet: &mut Fleet,
) -> Result<u64, RoundFault>
    requires workers { (1 ≤ workers) × (workers ≤ MOST_WORKERS) }
    requires stride { (1 ≤ stride) × (stride ≤ MOST_TURNS) }
    ensures { MakesRound workers result fleet.old fleet.new }
{
    fleet.round(rt, workers, stride, gate)
}

impl<'a, R: Threads + Wait + Sync, G: Gate> Crew<'a, R, G> {
    pub fn new(
        rt: &'a R,
        alloc: Global,
        gate: &'a G,
        workers: usize,
        stride: u32,
        tables: bool,
    ) -> Crew<'a, R, G>
        requires workers { (1 ≤ workers) × (workers ≤ MOST_WORKERS) }
        requires stride { (1 ≤ stride) × (stride ≤ MOST_TURNS) }
        ensures { result ≡ record { workers = workers; tables = tables } }
    {
        Crew {
            rt,
            alloc,
            gate,
            workers,
            stride,
            tables,
            viewer: Cell::new(None),
        }
    }

    /// The crew, with this viewer, if there is one.
    pub fn beside(self, viewer: Option<&'a mut Viewer>) -> Crew<'a, R, G>
        ensures { result ≡ self.entry }
    {
        self.viewer.set(viewer);
        self
    }

    /// Whether tables and what is unsettled are printed.
    pub fn tables(&self) -> bool
        ensures { result ≡ self.now.tables }
    {
        self.tables
    }

    /// A round of the fleet. Beside it the viewer reads in a thread of its own, and keeps what it reads.
    pub fn round(&self, fleet: &mut Fleet) -> Result<u64, RoundFault>
        ensures rounds { Rounds self.now.workers fleet.old fleet.new result }
        ensures publishes { Publishes result fleet.old fleet.new }
    {
        match self.viewer.replace(None) {
            None => self.make_round(fleet),
            Some(viewer) => {
                let made = self.round_beside(viewer, fleet);
                self.viewer.set(Some(viewer));
                made
            }
        }
    }

    fn make_round(&self, fleet: &mut Fleet) -> Result<u64, RoundFault>
        ensures rounds { Rounds self.now.workers fleet.old fleet.new result }
        ensures publishes { Publishes result fleet.old fleet.new }
    {
        fleet.round(self.rt, self.workers, self.stride, self.gate)
    }

    fn round_beside(&self, viewer: &mut Viewer, fleet: &mut Fleet) -> Result<u64, RoundFault>
        ensures rounds { Rounds self.now.workers fleet.old fleet.new result }
        ensures publishes { Publishes result fleet.old fleet.new }
    {
        // The crew itself isn't shared with the other thread, since it may hold a viewer.
        let (rt, alloc, gate) = (self.rt, self.alloc, self.gate);
        let (workers, stride) = (self.workers, self.stride);
        let mut read = || {
            let _table = viewer.read(alloc);
        };
        let mut make = ||
            requires workers { (1 ≤ workers) × (workers ≤ MOST_WORKERS) }
            requires stride { (1 ≤ stride) × (stride ≤ MOST_TURNS) }
        { turn(rt, gate, workers, stride, fleet) };
        let (_, made) = join_mut(rt, &mut read, &mut make);
        made
    }
}

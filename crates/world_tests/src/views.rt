//! That a viewer reads a published table while a round goes on: what no contract says.

ghost use Rattle.std.specs.Prelude.{[]};
ghost use Rattle.fleet.specs.Standing.{StandsFor};
ghost use Rattle.plan_reader.specs.Plans.{ArePostable};
ghost use Rattle.round_rules.specs.Records.{new_record};

use crate::gates::{LOOKS, hold};
use crate::networks::{A, pair};
use ason_base::NodeId;
use ason_io::{Gate, MemSink, NoGate};
use ason_main::{Ran, run_plan};
use fleet::{Fleet, RoundFault};
use mgmt_view::Viewer;
use plan_reader::{Plan, read_plan};
use station::WatchFault;
use std::alloc::Global;
use std::sync::Wait;
use std::sync::atomic::{AtomicU64, Ordering};
use std::test::Fail;
use std::thread;
use std::thread::{Threads, join_mut};

/// The plan of node a alone, and three rounds.
const PLAN: &str = r#"script = ["wait 3"]
[[node]]
name = "a"
id = 1
"#;

/// Holds node a before each line until the viewer has read a table of lines that were written.
#[derive(Drop)]
struct Reading {
    read: AtomicU64,
    gave_up: AtomicU64,
}

impl Gate for Reading {
    fn before(&self, node: NodeId, _entry: u64) {
        if node == A {
            hold(&self.read, 1, LOOKS, &self.gave_up);
        }
    }
}

// Reads again and again until a table is of lines that were written.
fn read_on(viewer: &mut Viewer, alloc: Global, read: &AtomicU64) {
    for _ in 0..LOOKS {
        if viewer.read(alloc).is_ok_and(|table| table.entries >= 1) {
            read.fetch_add(1, Ordering::SeqCst);
            return;
        }
        thread::yield_now();
    }
}

// A round beside which the viewer reads in a thread of its own.
fn round_beside<R: Threads + Wait + Sync>(
    rt: &R,
    alloc: Global,
    fleet: &mut Fleet,
    viewer: &mut Viewer,
    gate: &Reading,
    read: &AtomicU64,
) -> Result<u64, RoundFault> {
    let mut look = || read_on(viewer, alloc, read);
    let mut make = || fleet.round(rt, 1, 1, gate);
    let (_, made) = join_mut(rt, &mut look, &mut make);
    made
}

// How often node a waited for the viewer in vain, in a round beside which that reads in a thread of its own.
fn waits_in_vain<R: Threads + Wait + Sync>(
    rt: &R,
    alloc: Global,
    fleet: &mut Fleet,
    viewer: &mut Viewer,
) -> Result<u64, Fail> {
    let gate = Reading {
        read: AtomicU64::new(0),
        gave_up: AtomicU64::new(0),
    };
    round_beside(rt, alloc, fleet, viewer, &gate, &gate.read)?;
    Ok(gate.gave_up.load(Ordering::SeqCst))
}

// A first round, of which the viewer learns nothing, and a second one in which it reads.
fn reads_beside<R: Threads + Wait + Sync>(
    rt: &R,
    alloc: Global,
    fleet: &mut Fleet,
) -> Result<u64, Fail> {
    if !fleet.has(A) {
        return Err(Fail::new("node a has no station"));
    }
    match fleet.watch(rt, A) {
        Err(WatchFault::Watched) => Err(Fail::new("node a is watched")),
        Err(WatchFault::OutOfMemory) => Err(Fail::new("memory is wanting")),
        Ok(mut viewer) => {
            fleet.round(rt, 1, 1, &NoGate)?;
            waits_in_vain(rt, alloc, fleet, &mut viewer)
        }
    }
}

// The viewer of node a, after a run of the plan beside which it read.
fn viewer_after<R: Threads + Wait + Sync>(
    rt: &R,
    alloc: Global,
    plan: &Plan,
    fleet: &mut Fleet,
) -> Result<Viewer, Fail>
    requires new { StandsFor plan.now.topology [] fleet.old new_record }
    requires postable { ArePostable plan.now.topology [] plan.now.lines }
{
    if !fleet.has(A) {
        return Err(Fail::new("node a has no station"));
    }
    let Ok(mut viewer) = fleet.watch(rt, A) else {
        return Err(Fail::new("node a can't be watched"));
    };
    let mut out = MemSink::new(alloc, 1, Vec::new(alloc));
    let viewed = Some(&mut viewer);
    match run_plan(
        rt, alloc, fleet, plan, 1, 1, false, &mut out, &NoGate, viewed,
    ) {
        Ran::Ended => Ok(viewer),
        _ => Err(Fail::new("the run doesn't come to its end")),
    }
}

#[test]
fn a_viewer_reads_within_a_round(rt: HostRuntime) -> Result<(), Fail> {
    let t = pair(rt.alloc())?;
    let mut fleet = Fleet::new(rt.alloc(), &t)?;
    let in_vain = reads_beside(&rt, rt.alloc(), &mut fleet);
    fleet.end(&rt);
    assert_eq!(rt; in_vain?, 0);
    Ok(())
}

#[test]
fn a_viewer_keeps_what_it_read_beside_a_plan(rt: HostRuntime) -> Result<(), Fail> {
    let Ok(plan) = read_plan(rt.alloc(), PLAN.as_bytes()) else {
        return Err(Fail::new("the plan isn't read"));
    };
    let mut fleet = Fleet::new(rt.alloc(), &plan.topology)?;
    let after = viewer_after(&rt, rt.alloc(), &plan, &mut fleet);
    fleet.end(&rt);
    let mut viewer = after?;
    // Nobody publishes any more, so it answers what it kept: at first the table before the first line.
    let table = viewer.read(rt.alloc())?;
    assert!(rt; table.entries >= 1);
    Ok(())
}

//! Runs a plan beside which a node of it is watched, and tells what its viewer reads at the end.

ghost use Rattle.std.specs.Prelude.{◌≡◌, ℕ, List, [], None, Ok, Some, IfOk};
ghost use Rattle.commands.specs.{Replies.Watch, declared.status.Status.Status};
ghost use Rattle.ason_main.specs.{Answers.IsAnswered, Views.{HasReadAtEnd, HasReadLast, IsReadView, IsViewOf, IsViewed}};
ghost use Rattle.fleet.specs.{Standing.StandsFor, Views.{AreUnwatched, HasStation}};
ghost use Rattle.plan_reader.specs.Plans.{ArePostable, PlanOf};
ghost use Rattle.round_rules.specs.Records.{new_record};
ghost use Rattle.table_text.specs.EndsText.{plan_node};

use crate::host::Host;
use crate::keeping::keep;
use crate::laws::every_law;
use crate::runner::run::{Ran, run_plan};
use ason_base::{NodeId, OutOfMemory};
use ason_io::{Gate, Sink};
use commands::telling::{tell, tell_stop, tell_unknown};
use commands::{Pace, Status};
use fleet::Fleet;
use mgmt_view::{NodeTable, Viewer};
use plan_reader::Plan;
use station::WatchFault;
use std::alloc::Global;
use std::sync::Wait;
use std::thread::Threads;
use table_text::{node_of_name, view_text};

/// A node, and who reads its table.
struct Watched {
    node: NodeId,
    viewer: Viewer,
}

impl Drop for Watched {
    fn drop(self) {
        let Watched { node: _, viewer: _ } = self;
    }
}

// The table of the node that the viewer reads once it has learnt the last token.
fn read_last(
    alloc: Global,
    fleet: &mut Fleet,
    node: NodeId,
    viewer: &mut Viewer,
) -> Result<NodeTable, OutOfMemory>
    requires { IsViewed node fleet.old }
    ensures same { fleet.new ≡ fleet.old }
    ensures read { IfOk result (HasReadLast node fleet.old viewer.old viewer.new) }
{
    match fleet.told(node)? {
        None => unreachable!(),
        Some(token) => {
            viewer.learn_last(token);
            viewer.read(alloc)
        }
    }
}

// The view of the node, by that table.
fn view_of(
    alloc: Global,
    plan: &Plan,
    fleet: &mut Fleet,
    watched: &mut Watched,
) -> Result<Vec<u8>, OutOfMemory>
    requires { IsViewed watched.old.node fleet.old }
    ensures same { fleet.new ≡ fleet.old }
    ensures text { IfOk result (λ text. IsViewOf plan.now watched.old.node fleet.old text.items) }
    ensures read { IfOk result (λ text. IsReadView plan.now watched.old.node fleet.old
        watched.old.viewer watched.new.viewer text.items) }
{
    let table = read_last(alloc, fleet, watched.node, &mut watched.viewer)?;
    view_text(alloc, plan, watched.node, table.entries, table.legs.items())
}

// Runs the plan on this fleet, and tells what the viewer reads then.
fn watch_fleet<R: Threads + Wait + Sync, K: Sink, G: Gate>(
    host: &Host<R, G>,
    plan: &Plan,
    pace: Pace,
    watched: &mut Watched,
    fleet: &mut Fleet,
    out: &mut K,
) -> Status
    requires new { StandsFor plan.now.topology [] fleet.old new_record }
    requires postable { ArePostable plan.now.topology [] plan.now.lines }
    requires view { IsViewed watched.old.node fleet.old }
    ensures answer { (bs : List ℕ) (name : List ℕ) → PlanOf bs (Ok plan.now) →
        plan_node plan.now name ≡ Some watched.old.node →
        IsAnswered K.written K.faults (Watch pace name) bs out.old out.new (Some fleet.new) result }
    ensures read { result ≡ Status.Done → HasReadAtEnd watched.old.node fleet.new watched.new.viewer }
{
    every_law();
    let (workers, stride) = (pace.workers(), pace.stride());
    match run_plan(
        host.rt,
        host.alloc,
        fleet,
        plan,
        workers,
        stride,
        true,
        out,
        host.gate,
        Some(&mut watched.viewer),
    ) {
        Ran::Ended => match view_of(host.alloc, plan, fleet, watched) {
            Ok(text) => tell(out, &text, Status::Done),
            Err(OutOfMemory) => Status::OutOfMemory,
        },
        Ran::AtLimit(node) => tell_stop(host.alloc, plan, node, out),
        Ran::Failed => Status::WriteFault,
        Ran::OutOfMemory => Status::OutOfMemory,
    }
}

// Watches the node of a new fleet, and runs the plan on it.
fn watch_node<R: Threads + Wait + Sync, K: Sink, G: Gate>(
    host: &Host<R, G>,
    plan: &Plan,
    pace: Pace,
    node: NodeId,
    fleet: &mut Fleet,
    out: &mut K,
) -> Status
    requires new { StandsFor plan.now.topology [] fleet.old new_record }
    requires unwatched { AreUnwatched fleet.old.stations }
    requires node { HasStation node fleet.old }
    requires postable { ArePostable plan.now.topology [] plan.now.lines }
    ensures { (bs : List ℕ) (name : List ℕ) → PlanOf bs (Ok plan.now) →
        plan_node plan.now name ≡ Some node →
        IsAnswered K.written K.faults (Watch pace name) bs out.old out.new (Some fleet.new) result }
{
    every_law();
    match fleet.watch(host.rt, node) {
        Ok(viewer) => {
            let mut watched = Watched { node, viewer };
            watch_fleet(host, plan, pace, &mut watched, fleet, out)
        }
        Err(WatchFault::OutOfMemory) => Status::OutOfMemory,
        Err(WatchFault::Watched) => unreachable!(),
    }
}

// Watches this node, runs the plan, and keeps the fleet that made the run.
fn watch<R: Threads + Wait + Sync, K: Sink, G: Gate>(
    host: &Host<R, G>,
    plan: &Plan,
    pace: Pace,
    node: NodeId,
    out: &mut K,
    kept: &mut Option<Fleet>,
) -> Status
    requires postable { ArePostable plan.now.topology [] plan.now.lines }
    requires none { kept.old ≡ None }
    requires node { (name : List ℕ) × (plan_node plan.now name ≡ Some node) }
    ensures { (bs : List ℕ) (name : List ℕ) → PlanOf bs (Ok plan.now) →
        plan_node plan.now name ≡ Some node →
        IsAnswered K.written K.faults (Watch pace name) bs out.old out.new kept.new result }
{
    match Fleet::new(host.alloc, &plan.topology) {
        Ok(mut fleet) => {
            let status = watch_node(host, plan, pace, node, &mut fleet, out);
            keep(kept, fleet);
            status
        }
        Err(OutOfMemory) => Status::OutOfMemory,
    }
}

/// What `run --watch` with the name of a node answers of a plan.
pub fn watch_named<R: Threads + Wait + Sync, K: Sink, G: Gate>(
    host: &Host<R, G>,
    plan: &Plan,
    pace: Pace,
    name: &str,
    out: &mut K,
    kept: &mut Option<Fleet>,
) -> Status
    requires postable { ArePostable plan.now.topology [] plan.now.lines }
    requires none { kept.old ≡ None }
    ensures { (bs : List ℕ) → PlanOf bs (Ok plan.now) →
        IsAnswered K.written K.faults (Watch pace name.now) bs out.old out.new kept.new result }
{
    match node_of_name(plan, name) {
        Some(node) => watch(host, plan, pace, node, out, kept),
        None => tell_unknown(host.alloc, name, out),
    }
}

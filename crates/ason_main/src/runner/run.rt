//! Runs a plan's script, and writes what its lines print as they are done.

ghost use Rattle.std.specs.Prelude.{◌≡◌, ◌≤◌, ◌∷◌, [], IfErr, None, OnOk};
ghost use Rattle.ason_base.specs.declared.limits.TheConstants.{MOST_TURNS, MOST_WORKERS};
ghost use Rattle.round_rules.specs.Records.{new_record};
ghost use Rattle.fleet.specs.Standing.{StandsFor};
ghost use Rattle.plan_reader.specs.Plans.{ArePostable};
ghost use Rattle.script_rules.specs.Outputs.{script_of};
ghost use Rattle.ason_main.specs.{Outputs.{IsRan, ran_of}, Running.{CanDoAll, DoesAll, StopsAll, running_at}, Views.StayInView};

use crate::laws::every_law;
use crate::runner::crew::Crew;
use crate::runner::lines::{do_line, text_of};
use crate::runner::stops::Stop;
use ason_base::NodeId;
use ason_io::{Gate, Sink, write_all};
use fleet::Fleet;
use mgmt_view::Viewer;
use plan_reader::{Line, Plan};
use std::alloc::Global;
use std::sync::Wait;
use std::thread::Threads;

/// The most rounds before the script and after it.
pub(crate) const ROUNDS: u32 = 1000;

/// How a run ended.
#[derive(Clone, Copy, Drop)]
pub enum Ran {
    /// The whole script was run.
    Ended,
    /// The log of this node is full, and an input is at hand there: the least such node.
    AtLimit(NodeId),
    /// The sink failed.
    Failed,
    /// Memory was wanting.
    OutOfMemory,
}

// Does what a line says, and writes what it prints, where that is asked for.
fn run_line<R: Threads + Wait + Sync, K: Sink, G: Gate>(
    alloc: Global,
    plan: &Plan,
    crew: &Crew<R, G>,
    fleet: &mut Fleet,
    out: &mut K,
    line: &Line,
) -> Result<(), Stop>
    requires { CanDoAll plan.now.topology fleet.old (line.now ∷ []) }
    ensures done { OnOk result (DoesAll plan.now crew.now (line.now ∷ [])
        (running_at fleet.old (K.written out.old) (K.faults out.old))
        (running_at fleet.new (K.written out.new) (K.faults out.new)) None) }
    ensures stops { IfErr result (StopsAll plan.now crew.now (line.now ∷ [])
        (running_at fleet.old (K.written out.old) (K.faults out.old))
        (running_at fleet.new (K.written out.new) (K.faults out.new))) }
    ensures views { OnOk result (StayInView fleet.old.stations fleet.new.stations) }
{
    do_line(crew, fleet, line)?;
    if !crew.tables() {
        return Ok(());
    }
    let text = text_of(alloc, plan, fleet, line)?;
    match write_all(out, &text) {
        Ok(()) => Ok(()),
        Err(_) => Err(Stop::Failed),
    }
}

/// Does what these lines say, one after the other.
pub(crate) fn run_lines<R: Threads + Wait + Sync, K: Sink, G: Gate>(
    alloc: Global,
    plan: &Plan,
    crew: &Crew<R, G>,
    fleet: &mut Fleet,
    out: &mut K,
    lines: &[Line],
) -> Result<(), Stop>
    requires { CanDoAll plan.now.topology fleet.old lines.now }
    ensures done { OnOk result (DoesAll plan.now crew.now lines.now
        (running_at fleet.old (K.written out.old) (K.faults out.old))
        (running_at fleet.new (K.written out.new) (K.faults out.new)) None) }
    ensures stops { IfErr result (StopsAll plan.now crew.now lines.now
        (running_at fleet.old (K.written out.old) (K.faults out.old))
        (running_at fleet.new (K.written out.new) (K.faults out.new))) }
    ensures views { OnOk result (StayInView fleet.old.stations fleet.new.stations) }
{
    every_law();
    for line in lines {
        run_line(alloc, plan, crew, fleet, out, line)?;
    }
    Ok(())
}

// The network settles, the plan's lines are done, the network settles again, and the table comes last.
fn run_script<R: Threads + Wait + Sync, K: Sink, G: Gate>(
    alloc: Global,
    plan: &Plan,
    crew: &Crew<R, G>,
    fleet: &mut Fleet,
    out: &mut K,
) -> Result<(), Stop>
    requires new { StandsFor plan.now.topology [] fleet.old new_record }
    requires postable { ArePostable plan.now.topology [] plan.now.lines }
    ensures done { OnOk result (DoesAll plan.now crew.now (script_of plan.now)
        (running_at fleet.old (K.written out.old) (K.faults out.old))
        (running_at fleet.new (K.written out.new) (K.faults out.new)) None) }
    ensures stops { IfErr result (StopsAll plan.now crew.now (script_of plan.now)
        (running_at fleet.old (K.written out.old) (K.faults out.old))
        (running_at fleet.new (K.written out.new) (K.faults out.new))) }
    ensures views { OnOk result (StayInView fleet.old.stations fleet.new.stations) }
{
    every_law();
    run_lines(alloc, plan, crew, fleet, out, &[Line::Settle(ROUNDS)])?;
    run_lines(alloc, plan, crew, fleet, out, plan.lines.items())?;
    run_lines(
        alloc,
        plan,
        crew,
        fleet,
        out,
        &[Line::Settle(ROUNDS), Line::Show],
    )
}

// How a run ended whose script was done, or stopped so.
fn ran_of(done: Result<(), Stop>) -> Ran
    ensures { result ≡ ran_of done }
{
    match done {
        Ok(()) => Ran::Ended,
        Err(Stop::AtLimit(node)) => Ran::AtLimit(node),
        Err(Stop::Failed) => Ran::Failed,
        Err(Stop::OutOfMemory) => Ran::OutOfMemory,
    }
}

/// Runs the plan on so many workers, each station with so many turns a round: the network settles, the script is run,
/// the network settles again, and the table comes last. With `tables` what a line prints is written as soon as the line
/// is done; else nothing is written. Where a viewer is given it reads in each round, in a thread of its own beside the
/// workers. The fleet's logs and posts are those of the last stage of the script: their merge is a run of a world, and
/// the laws of the machine hold of the mesh that it shows. After `Failed` they are those of the stage to which the line
/// leads whose text the sink refused; after `OutOfMemory` the fleet may have made rounds of one line, or done it, beyond
/// what was written.
pub fn run_plan<R: Threads + Wait + Sync, K: Sink, G: Gate>(
    rt: &R,
    alloc: Global,
    fleet: &mut Fleet,
    plan: &Plan,
    workers: usize,
    stride: u32,
    tables: bool,
    out: &mut K,
    gate: &G,
    viewer: Option<&mut Viewer>,
) -> Ran
    requires new { StandsFor plan.now.topology [] fleet.old new_record }
    requires postable { ArePostable plan.now.topology [] plan.now.lines }
    requires workers { (1 ≤ workers) × (workers ≤ MOST_WORKERS) }
    requires stride { (1 ≤ stride) × (stride ≤ MOST_TURNS) }
    ensures ran { IsRan K.written K.faults plan.now (record { workers = workers; tables = tables })
        fleet.new out.old out.new result }
    ensures views { result ≡ Ran.Ended → StayInView fleet.old.stations fleet.new.stations }
{
    every_law();
    let crew = Crew::new(rt, alloc, gate, workers, stride, tables).beside(viewer);
    ran_of(run_script(alloc, plan, &crew, fleet, out))
}

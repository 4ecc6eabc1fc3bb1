//! Runs a plan, and tells the trace of its run.

ghost use Rattle.std.specs.Prelude.{◌≡◌, [], None, Ok, Some, IfErr, OnOk};
ghost use Rattle.commands.specs.Replies.{Trace};
ghost use Rattle.ason_main.specs.{Answers.IsAnswered, Running.HasWritten, Traces.{StopsTrace, TellsWholeTrace}};
ghost use Rattle.fleet.specs.Standing.{StandsFor};
ghost use Rattle.plan_reader.specs.Plans.{ArePostable, PlanOf};
ghost use Rattle.round_rules.specs.Records.{new_record};

use crate::host::Host;
use crate::keeping::keep;
use crate::laws::every_law;
use crate::runner::run::{Ran, run_plan};
use crate::tables::table_of;
use ason_base::OutOfMemory;
use ason_io::{Gate, Sink};
use commands::telling::tell_stop;
use commands::{Pace, Status};
use fleet::Fleet;
use plan_reader::Plan;
use std::alloc::Global;
use std::sync::Wait;
use std::thread::Threads;
use trace_text::laws::{every_checked, every_merge};
use trace_text::{TraceWriteFault, write_trace};

// Writes the trace of the fleet's logs and posts over the plan, which these bytes are.
fn tell_trace<K: Sink>(
    alloc: Global,
    plan: &Plan,
    bytes: &[u8],
    fleet: &Fleet,
    out: &mut K,
) -> Result<(), TraceWriteFault>
    ensures all { OnOk result (HasWritten (K.written out.old) (K.written out.new)
        (TellsWholeTrace plan.now bytes.now fleet.now)) }
    ensures stops { IfErr result (StopsTrace plan.now bytes.now fleet.now
        (K.written out.old) (K.written out.new) (K.faults out.old) (K.faults out.new)) }
{
    every_merge();
    let rows = table_of(alloc, fleet)?;
    let entries = fleet.entries(alloc)?;
    let count = fleet.entry_count();
    write_trace(alloc, out, bytes, plan, entries, count, &rows)
}

// Runs the plan on this fleet.
fn trace_fleet<R: Threads + Wait + Sync, K: Sink, G: Gate>(
    host: &Host<R, G>,
    plan: &Plan,
    bytes: &[u8],
    pace: Pace,
    fleet: &mut Fleet,
    out: &mut K,
) -> Status
    requires plan { PlanOf bytes.now (Ok plan.now) }
    requires new { StandsFor plan.now.topology [] fleet.old new_record }
    requires postable { ArePostable plan.now.topology [] plan.now.lines }
    ensures { IsAnswered K.written K.faults (Trace pace) bytes.now out.old out.new (Some fleet.new) result }
{
    every_law();
    every_checked();
    let (workers, stride) = (pace.workers(), pace.stride());
    match run_plan(
        host.rt, host.alloc, fleet, plan, workers, stride, false, out, host.gate, None,
    ) {
        Ran::Ended => match tell_trace(host.alloc, plan, bytes, fleet, out) {
            Ok(()) => Status::Done,
            Err(TraceWriteFault::Failed) => Status::WriteFault,
            Err(TraceWriteFault::OutOfMemory) => Status::OutOfMemory,
        },
        Ran::AtLimit(node) => tell_stop(host.alloc, plan, node, out),
        // Nothing is written of the run before its trace is.
        Ran::Failed => unreachable!(),
        Ran::OutOfMemory => Status::OutOfMemory,
    }
}

/// Runs the plan, which these bytes are, and keeps the fleet that made the run.
pub fn trace<R: Threads + Wait + Sync, K: Sink, G: Gate>(
    host: &Host<R, G>,
    plan: &Plan,
    bytes: &[u8],
    pace: Pace,
    out: &mut K,
    kept: &mut Option<Fleet>,
) -> Status
    requires plan { PlanOf bytes.now (Ok plan.now) }
    requires postable { ArePostable plan.now.topology [] plan.now.lines }
    requires none { kept.old ≡ None }
    ensures { IsAnswered K.written K.faults (Trace pace) bytes.now out.old out.new kept.new result }
{
    match Fleet::new(host.alloc, &plan.topology) {
        Ok(mut fleet) => {
            let status = trace_fleet(host, plan, bytes, pace, &mut fleet, out);
            keep(kept, fleet);
            status
        }
        Err(OutOfMemory) => Status::OutOfMemory,
    }
}

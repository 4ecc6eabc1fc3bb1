//! Runs a generated plan, and tells what becomes of its calls.

ghost use Rattle.std.specs.Prelude.{◌≡◌, [], None, Some};
ghost use Rattle.ason_main.specs.{Answers.{IsLoadAnswered, generated}, Loads.CanBeRun};
ghost use Rattle.fleet.specs.Standing.{StandsFor};
ghost use Rattle.round_rules.specs.Records.{new_record};

use crate::host::Host;
use crate::keeping::keep;
use crate::laws::every_law;
use crate::loading::load_text;
use crate::runner::stops::Stop;
use ason_base::OutOfMemory;
use ason_io::{Gate, Sink};
use commands::telling::tell;
use commands::{Load, Status};
use fleet::Fleet;
use load_plan::{LoadParts, load_parts};
use std::sync::Wait;
use std::thread::Threads;
use table_text::write_stopped;

// Runs it on this fleet.
fn load_fleet<R: Threads + Wait + Sync, K: Sink, G: Gate>(
    host: &Host<R, G>,
    parts: &LoadParts,
    fleet: &mut Fleet,
    out: &mut K,
) -> Status
    requires new { StandsFor parts.now.plan.topology [] fleet.old new_record }
    requires can { CanBeRun parts.now }
    ensures { IsLoadAnswered K.written K.faults parts.now out.old out.new (Some fleet.new) result }
{
    every_law();
    let mut text = Vec::new(host.alloc);
    match load_text(host, parts, fleet, &mut text) {
        Ok(()) => tell(out, &text, Status::Done),
        Err(Stop::AtLimit(node)) => match write_stopped(host.alloc, &mut text, &parts.plan, node) {
            Ok(()) => tell(out, &text, Status::EventLimit),
            Err(OutOfMemory) => Status::OutOfMemory,
        },
        // Nothing is written before all is told.
        Err(Stop::Failed) => unreachable!(),
        Err(Stop::OutOfMemory) => Status::OutOfMemory,
    }
}

// Runs it, and keeps the fleet that made the run.
fn load_new<R: Threads + Wait + Sync, K: Sink, G: Gate>(
    host: &Host<R, G>,
    parts: &LoadParts,
    out: &mut K,
    kept: &mut Option<Fleet>,
) -> Status
    requires can { CanBeRun parts.now }
    requires none { kept.old ≡ None }
    ensures { IsLoadAnswered K.written K.faults parts.now out.old out.new kept.new result }
{
    match Fleet::new(host.alloc, &parts.plan.topology) {
        Ok(mut fleet) => {
            let status = load_fleet(host, parts, &mut fleet, out);
            keep(kept, fleet);
            status
        }
        Err(OutOfMemory) => Status::OutOfMemory,
    }
}

/// Runs the plan that is generated so, and keeps the fleet that made the run.
pub fn load<R: Threads + Wait + Sync, K: Sink, G: Gate>(
    host: &Host<R, G>,
    what: Load,
    out: &mut K,
    kept: &mut Option<Fleet>,
) -> Status
    requires { kept.old ≡ None }
    ensures { IsLoadAnswered K.written K.faults (generated what) out.old out.new kept.new result }
{
    match load_parts(host.alloc, what.seed(), what.nodes(), what.calls()) {
        Ok(parts) => load_new(host, &parts, out, kept),
        Err(OutOfMemory) => Status::OutOfMemory,
    }
}

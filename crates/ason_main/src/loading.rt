//! Runs a generated plan, and tells after each part of its script how many calls are in each state.

ghost use Rattle.std.specs.Prelude.{◌≡◌, ◌++◌, [], ◌∷◌, IfErr, IfOk, List, None, OnOk};
ghost use Rattle.load_plan.specs.LoadParts.{AreAlwaysPostable};
ghost use Rattle.round_rules.specs.Records.{new_record};
ghost use Rattle.fleet.specs.Standing.{StandsFor};
ghost use Rattle.plan_reader.specs.Plans.{ArePostable};
ghost use Rattle.ason_main.specs.{Loads.{AreLoaded, CanBeRun, LoadPart, StopsLoad, TellsMore, TellsPhase, phase_part, parts_of_load, settling}, Outputs.silent_on, Running.{CanDoAll, DoesAll, StopsAll, running_at}};

use crate::host::Host;
use crate::laws::every_law;
use crate::runner::crew::Crew;
use crate::runner::run::{ROUNDS, run_lines};
use crate::runner::stops::Stop;
use crate::tables::table_of;
use ason_base::OutOfMemory;
use ason_io::{Gate, SureSink};
use fleet::Fleet;
use load_plan::{LoadParts, LoadPhase, phase_text};
use plan_reader::{Line, Plan};
use std::alloc::Global;
use std::sync::Wait;
use std::thread::Threads;

// Does these lines on one worker, and prints nothing.
fn do_lines<R: Threads + Wait + Sync, G: Gate>(
    host: &Host<R, G>,
    plan: &Plan,
    fleet: &mut Fleet,
    lines: &[Line],
) -> Result<(), Stop>
    requires { CanDoAll plan.now.topology fleet.old lines.now }
    ensures done { OnOk result (DoesAll plan.now (silent_on 1) lines.now
        (running_at fleet.old None 0) (running_at fleet.new None 0) None) }
    ensures stops { IfErr result (StopsAll plan.now (silent_on 1) lines.now
        (running_at fleet.old None 0) (running_at fleet.new None 0)) }
{
    let crew = Crew::new(host.rt, host.alloc, host.gate, 1, 1, false);
    let mut out = SureSink::new();
    run_lines(host.alloc, plan, &crew, fleet, &mut out, lines)
}

// The line of the phase.
fn phase_line(
    alloc: Global,
    plan: &Plan,
    fleet: &Fleet,
    phase: LoadPhase,
) -> Result<Vec<u8>, OutOfMemory>
    ensures { IfOk result (λ text. TellsPhase plan.now phase fleet.now text.items) }
{
    let rows = table_of(alloc, fleet)?;
    phase_text(alloc, phase, rows.calls.items())
}

// Tells the line of the phase behind what was told.
fn tell_phase(
    alloc: Global,
    plan: &Plan,
    fleet: &Fleet,
    phase: LoadPhase,
    text: &mut Vec<u8>,
) -> Result<(), OutOfMemory>
    ensures { OnOk result (TellsMore plan.now phase fleet.now text.old.items text.new.items) }
{
    let line = phase_line(alloc, plan, fleet, phase)?;
    text.extend_from_slice(&line)?;
    Ok(())
}

// Does a part of the script, which can be posted after whatever was posted before.
fn load_part<R: Threads + Wait + Sync, G: Gate>(
    host: &Host<R, G>,
    plan: &Plan,
    fleet: &mut Fleet,
    lines: &[Line],
    phase: LoadPhase,
    text: &mut Vec<u8>,
) -> Result<(), Stop>
    requires begun { (parts : List LoadPart) × AreLoaded plan.now parts fleet.old None text.old.items }
    requires postable { AreAlwaysPostable plan.now.topology lines.now }
    ensures done { (parts : List LoadPart) → AreLoaded plan.now parts fleet.old None text.old.items →
        OnOk result (AreLoaded plan.now (parts ++ phase_part lines.now phase ∷ []) fleet.new None text.new.items) }
    ensures stops { (parts : List LoadPart) → AreLoaded plan.now parts fleet.old None text.old.items →
        IfErr result (StopsLoad plan.now (parts ++ phase_part lines.now phase ∷ []) fleet.new text.new.items) }
{
    do_lines(host, plan, fleet, lines)?;
    tell_phase(host.alloc, plan, fleet, phase, text)?;
    Ok(())
}

// The network settles, and all calls are set up.
fn set_up<R: Threads + Wait + Sync, G: Gate>(
    host: &Host<R, G>,
    plan: &Plan,
    fleet: &mut Fleet,
) -> Result<(), Stop>
    requires new { StandsFor plan.now.topology [] fleet.old new_record }
    requires postable { ArePostable plan.now.topology [] plan.now.lines }
    ensures done { OnOk result (DoesAll plan.now (silent_on 1) (settling ++ plan.now.lines)
        (running_at fleet.old None 0) (running_at fleet.new None 0) None) }
    ensures stops { IfErr result (StopsAll plan.now (silent_on 1) (settling ++ plan.now.lines)
        (running_at fleet.old None 0) (running_at fleet.new None 0)) }
{
    every_law();
    do_lines(host, plan, fleet, &[Line::Settle(ROUNDS)])?;
    do_lines(host, plan, fleet, plan.lines.items())
}

// Does the first part.
fn build<R: Threads + Wait + Sync, G: Gate>(
    host: &Host<R, G>,
    plan: &Plan,
    fleet: &mut Fleet,
    text: &mut Vec<u8>,
) -> Result<(), Stop>
    requires new { StandsFor plan.now.topology [] fleet.old new_record }
    requires postable { ArePostable plan.now.topology [] plan.now.lines }
    requires empty { text.old.items ≡ [] }
    ensures done { OnOk result (AreLoaded plan.now (phase_part (settling ++ plan.now.lines) LoadPhase.Built ∷ [])
        fleet.new None text.new.items) }
    ensures stops { IfErr result (StopsLoad plan.now (phase_part (settling ++ plan.now.lines) LoadPhase.Built ∷ [])
        fleet.new text.new.items) }
{
    set_up(host, plan, fleet)?;
    tell_phase(host.alloc, plan, fleet, LoadPhase::Built, text)?;
    Ok(())
}

/// Runs the generated plan on one worker, and tells a line after each part of its script. After `AtLimit` those lines
/// are told that come before.
pub fn load_text<R: Threads + Wait + Sync, G: Gate>(
    host: &Host<R, G>,
    load: &LoadParts,
    fleet: &mut Fleet,
    text: &mut Vec<u8>,
) -> Result<(), Stop>
    requires new { StandsFor load.now.plan.topology [] fleet.old new_record }
    requires can { CanBeRun load.now }
    requires empty { text.old.items ≡ [] }
    ensures done { OnOk result (AreLoaded load.now.plan (parts_of_load load.now) fleet.new None text.new.items) }
    ensures stops { IfErr result (StopsLoad load.now.plan (parts_of_load load.now) fleet.new text.new.items) }
{
    let plan = &load.plan;
    build(host, plan, fleet, text)?;
    load_part(
        host,
        plan,
        fleet,
        load.failed.items(),
        LoadPhase::Failed,
        text,
    )?;
    load_part(
        host,
        plan,
        fleet,
        load.repaired.items(),
        LoadPhase::Repaired,
        text,
    )?;
    load_part(
        host,
        plan,
        fleet,
        load.reverted.items(),
        LoadPhase::Reverted,
        text,
    )?;
    do_lines(host, plan, fleet, &[Line::Settle(ROUNDS)])
}

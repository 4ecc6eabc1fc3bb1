//! What one line of a script does, and the text that it prints.

ghost use Rattle.std.specs.Prelude.{ℕ, IfErr, IfOk, None, OnOk};
ghost use Rattle.ason_base.specs.Network.{Network};
ghost use Rattle.plan_reader.specs.declared.lines.Line.TheVariants as said;
ghost use Rattle.ason_main.specs.{Views.StayInView, Running.{CanDo, Does, Stops, LineTells, TellsUnsettled}};

use crate::laws::every_law;
use crate::runner::crew::Crew;
use crate::runner::rounds::make_rounds;
use crate::runner::stops::Stop;
use crate::tables::table_of;
use ason_base::{Command, Disturb, NodeId, OutOfMemory};
use ason_io::Gate;
use fleet::Fleet;
use plan_reader::{Line, Plan};
use std::alloc::Global;
use std::sync::Wait;
use std::thread::Threads;
use table_text::{write_table, write_unsettled};

// Posts a command.
fn post_line(fleet: &mut Fleet, command: &Command) -> Result<(), Stop>
    ensures done { (t : Network) (workers : ℕ) → OnOk result
        (Does t workers (said.Post command.now) fleet.old fleet.new None) }
    ensures stops { (t : Network) (workers : ℕ) → IfErr result
        (Stops t workers (said.Post command.now) fleet.old fleet.new) }
    ensures views { OnOk result (StayInView fleet.old.stations fleet.new.stations) }
{
    fleet.post(command)?;
    Ok(())
}

// A line names a frame.
fn disturb_line(fleet: &mut Fleet, line: &Disturb) -> Result<(), Stop>
    requires { CanDo fleet.old (said.Disturb line.now) }
    ensures done { (t : Network) (workers : ℕ) → OnOk result
        (Does t workers (said.Disturb line.now) fleet.old fleet.new None) }
    ensures stops { (t : Network) (workers : ℕ) → IfErr result
        (Stops t workers (said.Disturb line.now) fleet.old fleet.new) }
    ensures views { OnOk result (StayInView fleet.old.stations fleet.new.stations) }
{
    fleet.disturb(line)?;
    Ok(())
}

// Bytes that spell nothing come from one node to the other. Where its log is full the run ends there.
fn noise_line(fleet: &mut Fleet, from: NodeId, to: NodeId, bytes: &[u8]) -> Result<(), Stop>
    requires { CanDo fleet.old (said.Noise from to bytes.now) }
    ensures done { (t : Network) (workers : ℕ) → OnOk result
        (Does t workers (said.Noise from to bytes.now) fleet.old fleet.new None) }
    ensures stops { (t : Network) (workers : ℕ) → IfErr result
        (Stops t workers (said.Noise from to bytes.now) fleet.old fleet.new) }
    ensures views { OnOk result (StayInView fleet.old.stations fleet.new.stations) }
{
    every_law();
    if fleet.full(to) {
        return Err(Stop::AtLimit(to));
    }
    fleet.noise(from, to, bytes)?;
    Ok(())
}

/// Does what a line says, and prints nothing.
pub fn do_line<R: Threads + Wait + Sync, G: Gate>(
    crew: &Crew<R, G>,
    fleet: &mut Fleet,
    line: &Line,
) -> Result<(), Stop>
    requires { CanDo fleet.old line.now }
    ensures done { (t : Network) → OnOk result
        (Does t crew.now.workers line.now fleet.old fleet.new None) }
    ensures stops { (t : Network) → IfErr result
        (Stops t crew.now.workers line.now fleet.old fleet.new) }
    ensures views { OnOk result (StayInView fleet.old.stations fleet.new.stations) }
{
    match line {
        Line::Post(command) => post_line(fleet, command),
        Line::Disturb(line) => disturb_line(fleet, line),
        Line::Noise { from, to, bytes } => noise_line(fleet, *from, *to, bytes.items()),
        Line::Settle(rounds) => make_rounds(crew, fleet, *rounds, true),
        Line::Wait(rounds) => make_rounds(crew, fleet, *rounds, false),
        Line::Show => Ok(()),
    }
}

// The line of what is unsettled, nothing where all is quiet: where the nodes are, the world is.
fn unsettled_text(alloc: Global, fleet: &Fleet) -> Result<Vec<u8>, OutOfMemory>
    ensures { IfOk result (λ text. TellsUnsettled fleet.now text.items) }
{
    every_law();
    let mut text = Vec::new(alloc);
    if fleet.quiet() {
        return Ok(text);
    }
    let waits = fleet.pending();
    write_unsettled(alloc, &mut text, waits.desk, waits.hop, waits.flood)?;
    Ok(text)
}

// The table.
fn show_text(alloc: Global, plan: &Plan, fleet: &Fleet) -> Result<Vec<u8>, OutOfMemory>
    ensures { IfOk result (λ text. LineTells plan.now said.Show fleet.now text.items) }
{
    let rows = table_of(alloc, fleet)?;
    let mut text = Vec::new(alloc);
    write_table(alloc, &mut text, plan, &rows)?;
    Ok(text)
}

/// What a line prints when it is done: `settle` what is unsettled, `show` the table, and the others nothing.
pub fn text_of(
    alloc: Global,
    plan: &Plan,
    fleet: &Fleet,
    line: &Line,
) -> Result<Vec<u8>, OutOfMemory>
    ensures { IfOk result (λ text. LineTells plan.now line.now fleet.now text.items) }
{
    match line {
        Line::Post(_) | Line::Disturb(_) | Line::Noise { .. } | Line::Wait(_) => Ok(Vec::new(
            alloc,
        )),
        Line::Settle(_) => unsettled_text(alloc, fleet),
        Line::Show => show_text(alloc, plan, fleet),
    }
}

//! A turn of a station.

ghost use Rattle.std.specs.{Prelude.{◌≡◌, ◌≤◌, OnOk, length}, List.AllZip};
ghost use Rattle.round_rules.specs.{Phases.turn_phase, Moves.IsDrained, Turned.HasMadeTurn};
ghost use Rattle.station.specs.{Fits.{PartsFit, station_state}, Leads.{IsMoving, StationLeads}, Turning.{answer_of, worked}};

use crate::dues::free_due;
use crate::halts::Halt;
use crate::items::handle_desk;
use crate::others::Others;
use crate::parts::Parts;
use crate::rings::take_rings;
use crate::ticks;
use ason_io::Gate;
use round_rules::Turn;

// The parts of a turn.
fn work<G: Gate>(parts: &mut Parts, gate: &G, others: Others, tick: bool) -> Result<(), Halt>
    requires fit { PartsFit parts.old }
    ensures on { StationLeads result (turn_phase tick) (station_state parts.old) (station_state parts.new) }
    ensures drained { OnOk result (AllZip IsDrained parts.old.links.items parts.new.links.items) }
    ensures moves { IsMoving (station_state parts.old) (station_state parts.new) }
    ensures fit { PartsFit parts.new }
{
    ticks::tick(parts, gate, tick)?;
    free_due(parts, gate)?;
    handle_desk(parts, gate)?;
    take_rings(parts, gate, others)
}

// Of a turn that came to its end.
fn worked(before: usize, after: usize) -> Turn
    requires { before ≤ after }
    ensures { result ≡ worked before after }
{
    if before == after {
        Turn::Idle
    } else {
        Turn::Worked((after - before) as u64)
    }
}

// How a turn ended, of the lengths of the log before it and after it.
fn answer_of(ended: Result<(), Halt>, before: usize, after: usize) -> Turn
    requires { before ≤ after }
    ensures { result ≡ answer_of ended before after }
{
    match ended {
        Ok(()) => worked(before, after),
        Err(Halt::AtLimit) => Turn::AtLimit,
        Err(Halt::OutOfMemory) => Turn::Starved,
    }
}

/// A turn: a tick where it is asked for, the held frames that are due, all items of the desk, then the frames of the
/// rings.
pub(crate) fn turn<G: Gate>(parts: &mut Parts, gate: &G, others: Others, tick: bool) -> Turn
    requires fit { PartsFit parts.old }
    ensures made { HasMadeTurn tick (station_state parts.old) (station_state parts.new) result }
    ensures answer { parts.new.answer ≡ result }
    ensures grows { length parts.old.log.items ≤ length parts.new.log.items }
    ensures fit { PartsFit parts.new }
{
    let before = parts.log.len();
    let ended = work(parts, gate, others, tick);
    let answer = answer_of(ended, before, parts.log.len());
    parts.answer = answer;
    answer
}

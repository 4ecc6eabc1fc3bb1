//! The frames of the rings.

ghost use Rattle.std.specs.{Prelude.{◌≡◌, ◌<◌, ◌≤◌, ◌+◌, ◌++◌, ◌∷◌, [], None, OnOk, Ok, Some, length, true, vec_capacity, vec_len}, List.AllZip};
ghost use Rattle.ason_base.specs.declared.commands.DisturbKind.{DisturbKind};
ghost use Rattle.control_channels.specs.ReadyControllers.{IsFromNeighbour};
ghost use Rattle.round_rules.specs.{Lines.says, Phases.rings_phase, Moves.IsDrained};
ghost use Rattle.station.specs.{Entering.is_able_for, Fits.{PartsFit, station_state}, Leads.{GoesOnAt, GoesPast, IsMoving, IsInputRead, StationLeads}, Rings.{GivesTwice, HasTakenAs, HasTakenAt, IsAhead, IsDrainedAt}};

use crate::halts::Halt;
use crate::lines::says;
use crate::links::{Ahead, head_at, known_at, peer_at, take_at};
use crate::others::Others;
use crate::parts::{Parts, enter_frame, enter_last, is_able_for};
use ason_base::DisturbKind;
use ason_base::limits::MOST_FRAMES;
use ason_io::Gate;
use controller::CoreInput;
use round_rules::HeldParcel;

// The frame is taken, and not delivered.
fn lose(parts: &mut Parts, ahead: Ahead)
    requires fit { PartsFit parts.old }
    requires ahead { IsAhead ahead parts.old.links.items }
    requires says { says parts.old.lines.items ahead.from parts.old.me ahead.head.number ≡
        Some DisturbKind.Lose }
    ensures on { GoesOnAt (Ok tt) ahead.place (station_state parts.old) (station_state parts.new) }
    ensures taken { HasTakenAt ahead.place parts.old.links.items parts.new.links.items }
    ensures moves { IsMoving (station_state parts.old) (station_state parts.new) }
    ensures fit { PartsFit parts.new }
{
    let _lost = take_at(&mut parts.links, ahead.place);
}

// Puts a parcel at the end, where there is room for it.
fn keep(held: &mut Vec<HeldParcel>, parcel: HeldParcel)
    requires { vec_len held.old + 1 ≤ vec_capacity held.old }
    ensures { held.new.items ≡ held.old.items ++ parcel ∷ [] }
{
    match held.push(parcel) {
        Ok(()) => {}
        Err(_) => unreachable!(),
    }
}

// The frame is taken, and held back.
fn hold(parts: &mut Parts, ahead: Ahead) -> Result<(), Halt>
    requires fit { PartsFit parts.old }
    requires ahead { IsAhead ahead parts.old.links.items }
    requires says { says parts.old.lines.items ahead.from parts.old.me ahead.head.number ≡
        Some DisturbKind.Hold }
    ensures on { GoesOnAt result ahead.place (station_state parts.old) (station_state parts.new) }
    ensures taken { OnOk result
        (HasTakenAt ahead.place parts.old.links.items parts.new.links.items) }
    ensures moves { IsMoving (station_state parts.old) (station_state parts.new) }
    ensures fit { PartsFit parts.new }
{
    if parts.held.reserve(1).is_err() {
        return Err(Halt::OutOfMemory);
    }
    let parcel = take_at(&mut parts.links, ahead.place);
    let from = ahead.from;
    keep(
        &mut parts.held,
        HeldParcel {
            from,
            parcel,
            ticks: 0,
        },
    );
    Ok(())
}

// The frame is taken, as this input.
fn take_input(parts: &mut Parts, ahead: Ahead) -> CoreInput
    requires fit { PartsFit parts.old }
    requires ahead { IsAhead ahead parts.old.links.items }
    ensures taken { HasTakenAs ahead result (station_state parts.old) (station_state parts.new) }
    ensures from { IsFromNeighbour parts.new.controller.node.place result }
    ensures read { IsInputRead result }
    ensures fit { PartsFit parts.new }
{
    let parcel = take_at(&mut parts.links, ahead.place);
    CoreInput::Frame {
        from: ahead.from,
        bytes: parcel.frame,
    }
}

// The frame is taken and delivered. It is lost where memory is wanting.
fn deliver<G: Gate>(parts: &mut Parts, gate: &G, ahead: Ahead) -> Result<(), Halt>
    requires fit { PartsFit parts.old }
    requires ahead { IsAhead ahead parts.old.links.items }
    requires says { says parts.old.lines.items ahead.from parts.old.me ahead.head.number ≡ None }
    ensures on { GoesOnAt result ahead.place (station_state parts.old) (station_state parts.new) }
    ensures taken { OnOk result
        (HasTakenAt ahead.place parts.old.links.items parts.new.links.items) }
    ensures moves { IsMoving (station_state parts.old) (station_state parts.new) }
    ensures fit { PartsFit parts.new }
{
    if !is_able_for(parts, ahead.head.stamp) {
        return Err(Halt::AtLimit);
    }
    let input = take_input(parts, ahead);
    enter_last(parts, gate, input, ahead.from, ahead.head)
}

// The frame that was taken as this input is delivered twice. It is lost where memory is wanting.
fn enter_twice<G: Gate>(
    parts: &mut Parts,
    gate: &G,
    ahead: Ahead,
    input: &CoreInput,
) -> Result<(), Halt>
    requires fit { PartsFit parts.old }
    requires from { IsFromNeighbour parts.old.controller.node.place input.now }
    requires read { IsInputRead input.now }
    requires able { is_able_for ahead.head.stamp (station_state parts.old) ≡ true }
    ensures gives { GivesTwice result ahead input.now (station_state parts.old) (station_state parts.new) }
    ensures fit { PartsFit parts.new }
{
    enter_frame(parts, gate, input, ahead.from, ahead.head)?;
    if !is_able_for(parts, ahead.head.stamp) {
        return Err(Halt::AtLimit);
    }
    enter_frame(parts, gate, input, ahead.from, ahead.head)
}

// The frame is taken, and delivered twice.
fn repeat<G: Gate>(parts: &mut Parts, gate: &G, ahead: Ahead) -> Result<(), Halt>
    requires fit { PartsFit parts.old }
    requires ahead { IsAhead ahead parts.old.links.items }
    requires says { says parts.old.lines.items ahead.from parts.old.me ahead.head.number ≡
        Some DisturbKind.Repeat }
    ensures on { GoesOnAt result ahead.place (station_state parts.old) (station_state parts.new) }
    ensures taken { OnOk result
        (HasTakenAt ahead.place parts.old.links.items parts.new.links.items) }
    ensures moves { IsMoving (station_state parts.old) (station_state parts.new) }
    ensures fit { PartsFit parts.new }
{
    if !is_able_for(parts, ahead.head.stamp) {
        return Err(Halt::AtLimit);
    }
    let input = take_input(parts, ahead);
    enter_twice(parts, gate, ahead, &input)
}

// What the last line that names the frame says is done with it.
fn take_frame<G: Gate>(parts: &mut Parts, gate: &G, ahead: Ahead) -> Result<(), Halt>
    requires fit { PartsFit parts.old }
    requires ahead { IsAhead ahead parts.old.links.items }
    ensures on { GoesOnAt result ahead.place (station_state parts.old) (station_state parts.new) }
    ensures taken { OnOk result
        (HasTakenAt ahead.place parts.old.links.items parts.new.links.items) }
    ensures moves { IsMoving (station_state parts.old) (station_state parts.new) }
    ensures fit { PartsFit parts.new }
{
    match says(&parts.lines, ahead.from, parts.me, ahead.head.number) {
        None => deliver(parts, gate, ahead),
        Some(DisturbKind::Repeat) => repeat(parts, gate, ahead),
        Some(DisturbKind::Hold) => hold(parts, ahead),
        Some(DisturbKind::Lose) => {
            lose(parts, ahead);
            Ok(())
        }
    }
}

// The frames of the ring at this place are taken until none is found there: 256, and never fewer than were known. Where
// the other stations wait, none comes beside those that are known.
fn take_ring<G: Gate>(parts: &mut Parts, gate: &G, others: Others, place: usize) -> Result<(), Halt>
    requires fit { PartsFit parts.old }
    requires place { place < length parts.old.links.items }
    ensures on { GoesPast result place (station_state parts.old) (station_state parts.new) }
    ensures drained { OnOk result
        (IsDrainedAt place parts.old.links.items parts.new.links.items) }
    ensures moves { IsMoving (station_state parts.old) (station_state parts.new) }
    ensures fit { PartsFit parts.new }
{
    let known = known_at(&parts.links, place);
    if known == 0 && others == Others::Waiting {
        return Ok(());
    }
    let from = peer_at(&parts.links, place);
    let count = known.max(MOST_FRAMES);
    for _frame in 0..count {
        match head_at(&mut parts.links, place) {
            None => return Ok(()),
            Some(head) => take_frame(parts, gate, Ahead { place, from, head })?,
        }
    }
    Ok(())
}

/// The frames of all rings are taken, by neighbour.
pub(crate) fn take_rings<G: Gate>(parts: &mut Parts, gate: &G, others: Others) -> Result<(), Halt>
    requires fit { PartsFit parts.old }
    ensures on { StationLeads result (rings_phase 0) (station_state parts.old) (station_state parts.new) }
    ensures drained { OnOk result (AllZip IsDrained parts.old.links.items parts.new.links.items) }
    ensures moves { IsMoving (station_state parts.old) (station_state parts.new) }
    ensures fit { PartsFit parts.new }
{
    let count = parts.links.len();
    for place in 0..count {
        take_ring(parts, gate, others, place)?;
    }
    Ok(())
}

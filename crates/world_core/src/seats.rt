//! The seats of all nodes, in order of number.

ghost use Rattle.std.specs.{Prelude.{◌≡◌, ◌<◌, ◌++◌, ◌∷◌, [], IfErr, IfOk, IsSome, OnOk, Some, false, find, flat_map, length, map, position, slice_get, slice_set}, List.list_all, Option.option_copied};
ghost use Rattle.ason_base.specs.Network.{find_node};
ghost use Rattle.mesh_rules.specs.Rows.{call_rows, leg_rows};
ghost use Rattle.world_core.specs.{declared.faults.Fault.Fault, Seats.{HasDoneAt, SeatState, can_do, frame_there, is_able, is_seat_at, is_channel_there, is_quiet, new_seat, told_seat, seat_with_item}};

use crate::acts::Act;
use crate::faults::Fault;
use crate::seat::WorldSeat;
use ason_base::{
    Bytes, CallRows, DeskItem, Group, LegRows, NodeId, OutOfMemory, TableRows, Topology,
};
use std::alloc::Global;

// The seat of this node comes after those before it.
fn push_seat(
    seats: &mut Vec<WorldSeat>,
    alloc: Global,
    t: &Topology,
    n: NodeId,
) -> Result<(), OutOfMemory>
    requires { IsSome (find_node t.now n) }
    ensures { OnOk result (seats.new.items ≡ seats.old.items ++ new_seat t.now n ∷ []) }
{
    let seat = WorldSeat::new(alloc, t, n)?;
    seats.push(seat)?;
    Ok(())
}

/// A seat for each node.
pub(crate) fn new_seats(alloc: Global, t: &Topology) -> Result<Vec<WorldSeat>, OutOfMemory>
    ensures { IfOk result (λ v. v.items ≡ map (λ m. new_seat t.now m.id) t.now.nodes) }
{
    let mut seats = Vec::new(alloc);
    for m in t.nodes() {
        push_seat(&mut seats, alloc, t, m.id)?;
    }
    Ok(seats)
}

/// Where the seat of this node is.
pub(crate) fn place_of(seats: &[WorldSeat], n: NodeId) -> Option<usize>
    ensures { result ≡ position (is_seat_at n.0) seats.now }
{
    seats.iter().position(|seat| seat.node() == n)
}

/// Where the seat of this node is, if the node may make an event more.
pub(crate) fn able_place(seats: &[WorldSeat], n: NodeId) -> Option<usize>
    ensures { result ≡ position (is_able n.0) seats.now }
{
    seats.iter().position(|seat| seat.is_able(n))
}

/// The node at this place does this, where it can be done.
pub(crate) fn act_at(seats: &mut Vec<WorldSeat>, place: usize, act: Act) -> Result<(), Fault>
    requires within { place < length seats.old.items }
    requires few { (s : SeatState) → slice_get seats.old.items place ≡ Some s →
        s.controller.steps < 50000 }
    ensures done { OnOk result ((s : SeatState) → slice_get seats.old.items place ≡ Some s →
        HasDoneAt seats.old.items place s act seats.new.items) }
    ensures refused { IfErr result
        (λ f. f ≡ Fault.NotEnabled → (s : SeatState) → slice_get seats.old.items place ≡ Some s →
        can_do s act ≡ false) }
    ensures unmoved { IfErr result (λ f. f ≡ Fault.NotEnabled → seats.new.items ≡ seats.old.items) }
{
    let seat = &mut seats[place];
    seat.act(act)
}

/// Puts an item on the desk at this place.
pub(crate) fn put_at(
    seats: &mut Vec<WorldSeat>,
    place: usize,
    item: DeskItem,
) -> Result<(), OutOfMemory>
    requires { place < length seats.old.items }
    ensures { OnOk result ((s : SeatState) → slice_get seats.old.items place ≡ Some s →
        seats.new.items ≡ slice_set seats.old.items place (seat_with_item item s)) }
{
    let seat = &mut seats[place];
    seat.put(item)
}

/// Puts what each node is told at the end of its desk, where other groups have failed than before.
pub(crate) fn tell_all(
    seats: &mut [WorldSeat],
    t: &Topology,
    before: &[Group],
    after: &[Group],
) -> Result<(), OutOfMemory>
    ensures { OnOk result (seats.new ≡ map (told_seat t.now before.now after.now) seats.old) }
{
    for seat in seats.iter_mut() {
        seat.tell(t, before, after)?;
    }
    Ok(())
}

fn seat_at(seats: &[WorldSeat], n: NodeId) -> Option<&WorldSeat>
    ensures { option_copied result ≡ find (is_seat_at n.0) seats.now }
{
    seats.iter().find(|seat| seat.node() == n)
}

/// Whether a channel leads from one node to the other.
pub(crate) fn is_channel_there(seats: &[WorldSeat], u: NodeId, d: NodeId) -> bool
    ensures { result ≡ is_channel_there seats.now u d }
{
    match seat_at(seats, u) {
        None => false,
        Some(seat) => seat.leads_to(d),
    }
}

/// The frame with this number on the channel from one node to the other.
pub(crate) fn frame_there(seats: &[WorldSeat], u: NodeId, d: NodeId, number: u64) -> Option<&Bytes>
    ensures { option_copied result ≡ frame_there seats.now u d number }
{
    match seat_at(seats, u) {
        None => None,
        Some(seat) => seat.frame(d, number),
    }
}

/// What a table shows of each node, one after the other.
pub(crate) fn rows_of(alloc: Global, seats: &[WorldSeat]) -> Result<TableRows, OutOfMemory>
    ensures calls { IfOk result
        (λ rows. rows.calls ≡ flat_map
        (λ s. call_rows s.controller.node.place.id s.controller.node.state) seats.now) }
    ensures legs { IfOk result
        (λ rows. rows.legs ≡ flat_map
        (λ s. leg_rows s.controller.node.place.id s.controller.node.state) seats.now) }
{
    let mut calls = Vec::new(alloc);
    let mut legs = Vec::new(alloc);
    for seat in seats {
        let rows = seat.rows(alloc)?;
        calls.extend_from_slice(rows.calls.items())?;
        legs.extend_from_slice(rows.legs.items())?;
    }
    let calls = CallRows::from_vec(calls);
    let legs = LegRows::from_vec(legs);
    Ok(TableRows { calls, legs })
}

/// Whether nothing waits at any node.
pub(crate) fn are_quiet(seats: &[WorldSeat]) -> bool
    ensures { result ≡ list_all is_quiet seats.now }
{
    seats.iter().all(|seat| seat.is_quiet())
}

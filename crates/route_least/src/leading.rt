//! The places from which tight arcs lead to the end. Along a tight arc the costs rise just by the metric.

ghost use Rattle.std.specs.Prelude.{◌≡◌, ◌↔◌, ◌<◌, ◌≤◌, ℕ, true, IfOk, IsTrue, OnOk, length};
ghost use Rattle.ason_base.specs.declared.limits.TheConstants.{MOST_METRIC};
ghost use Rattle.route_least.specs.{Costs.{is_place_marked, AreSmall}, Marking.{AreOnward, ComesBy, Crosses, HasMarked}, Network.AreSound, Trace.{AreMarked, IsTight}, declared.places.Arc.Arc};

use crate::costs::no_marks;
use crate::places::{Arc, Place};
use ason_base::ids::OutOfMemory;
use std::alloc::Global;

/// Marks the places from which tight arcs over rows that aren't closed lead to `end`.
pub(crate) fn leading(
    alloc: Global,
    places: &[Place],
    closed: &[bool],
    costs: &[Option<u32>],
    end: usize,
) -> Result<Vec<bool>, OutOfMemory>
    requires sound { AreSound (length closed.now) places.now }
    requires costs { length costs.now ≡ length places.now }
    requires small { AreSmall costs.now }
    requires end { end < length places.now }
    ensures len { IfOk result (λ marks. length marks.items ≡ length places.now) }
    ensures marked { IfOk result
        (λ marks. AreMarked (Crosses places.now closed.now) costs.now end marks.items) }
{
    let mut marks = no_marks(alloc, places.len())?;
    let mut waiting = Vec::new(alloc);
    marks[end] = true;
    waiting.push(end)?;
    while let Some(place) = waiting.pop() {
        mark_before(places, closed, costs, place, &mut marks, &mut waiting)?;
    }
    Ok(marks)
}

// Marks the places from which a tight arc leads to this one, and lets those that are new wait.
fn mark_before(
    places: &[Place],
    closed: &[bool],
    costs: &[Option<u32>],
    place: usize,
    marks: &mut [bool],
    waiting: &mut Vec<usize>,
) -> Result<(), OutOfMemory>
    requires sound { AreSound (length closed.now) places.now }
    requires costs { length costs.now ≡ length places.now }
    requires small { AreSmall costs.now }
    requires place { place < length places.now }
    requires marks { length marks.old ≡ length places.now }
    requires marked { is_place_marked marks.old place ≡ true }
    ensures marked { OnOk result
        (HasMarked marks.old marks.new waiting.old.items waiting.new.items) }
    ensures onward { OnOk result
        ((end : ℕ) → AreOnward (Crosses places.now closed.now) costs.now end marks.old →
        AreOnward (Crosses places.now closed.now) costs.now end marks.new) }
    ensures before { OnOk result ((p : ℕ) (arc : Arc) → Crosses places.now closed.now p arc →
        IsTight costs.now p arc → arc.head ≡ place → is_place_marked marks.new p ≡ true) }
{
    let Some(cost) = costs[place] else {
        return Ok(());
    };
    for arc in &places[place].arcs {
        if comes_by(closed, costs, cost, arc) && !marks[arc.head] {
            marks[arc.head] = true;
            waiting.push(arc.head)?;
        }
    }
    Ok(())
}

// Whether the arc's row isn't closed, and costs rise along it, the other way, by the metric to this cost.
fn comes_by(closed: &[bool], costs: &[Option<u32>], cost: u32, arc: &Arc) -> bool
    requires row { arc.now.row < length closed.now }
    requires head { arc.now.head < length costs.now }
    requires small { AreSmall costs.now }
    requires metric { arc.now.metric ≤ MOST_METRIC }
    ensures { IsTrue result ↔ ComesBy closed.now costs.now cost arc.now }
{
    if closed[arc.row] {
        return false;
    }
    match costs[arc.head] {
        Some(before) => before + arc.metric == cost,
        None => false,
    }
}

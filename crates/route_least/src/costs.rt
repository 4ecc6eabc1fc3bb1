//! Least costs from a place, in rounds over the places whose cost was lowered, until none is.

ghost use Rattle.std.specs.{Prelude.{◌≡◌, ◌≢◌, ◌↔◌, ◌<◌, ℕ, false, true, IfOk, IsTrue, None, length, replicate, sum_by}, List.Contains};
ghost use Rattle.route_least.specs.{Costs.{height, is_place_marked, AreBounded, AreLeast, AreArcsSettled, AreSmall, IsAtMostOver, IsLowered, IsCostStep}, Network.{AreSound, Goes, IsFree, IsArcWithin}};

use crate::places::{Arc, Place};
use ason_base::ids::{NodeId, OutOfMemory};
use std::alloc::Global;

/// Whether a walk may go along the arc: its row isn't closed, and it leads to no banned node.
pub(crate) fn is_free(places: &[Place], closed: &[bool], banned: &[NodeId], arc: &Arc) -> bool
    requires row { arc.now.row < length closed.now }
    requires head { arc.now.head < length places.now }
    ensures { IsTrue result ↔ IsFree places.now closed.now banned.now arc.now }
{
    !closed[arc.row] && !is_banned(banned, places[arc.head].node)
}

fn is_banned(banned: &[NodeId], node: NodeId) -> bool
    ensures { IsTrue result ↔ Contains banned.now node }
{
    banned.contains(&node)
}

/// The least costs from `start` to each place.
pub(crate) fn least_costs(
    alloc: Global,
    places: &[Place],
    closed: &[bool],
    banned: &[NodeId],
    start: usize,
) -> Result<Vec<Option<u32>>, OutOfMemory>
    requires sound { AreSound (length closed.now) places.now }
    requires start { start < length places.now }
    ensures len { IfOk result (λ costs. length costs.items ≡ length places.now) }
    ensures least { IfOk result
        (λ costs. AreLeast (Goes places.now closed.now banned.now) start costs.items) }
    ensures small { IfOk result (λ costs. AreSmall costs.items) }
{
    let mut costs = no_costs(alloc, places.len())?;
    let mut lowered = no_marks(alloc, places.len())?;
    costs[start] = Some(0);
    lowered[start] = true;
    while pass(places, closed, banned, &mut costs, &mut lowered) {}
    Ok(costs)
}

fn no_costs(alloc: Global, count: usize) -> Result<Vec<Option<u32>>, OutOfMemory>
    ensures { IfOk result (λ costs. costs.items ≡ replicate count None) }
{
    let costs: Vec<Option<u32>> = vec![in alloc; None; count]?;
    Ok(costs)
}

/// No mark at any of so many places.
pub(crate) fn no_marks(alloc: Global, count: usize) -> Result<Vec<bool>, OutOfMemory>
    ensures { IfOk result (λ marks. marks.items ≡ replicate count false) }
{
    let marks: Vec<bool> = vec![in alloc; false; count]?;
    Ok(marks)
}

// Visits each place whose cost was lowered. Whether any cost was lowered then. It is out of line, so that its loop stays short.
#[inline(never)]
fn pass(
    places: &[Place],
    closed: &[bool],
    banned: &[NodeId],
    costs: &mut [Option<u32>],
    lowered: &mut [bool],
) -> bool
    requires sound { AreSound (length closed.now) places.now }
    requires costs { length costs.old ≡ length places.now }
    requires lowered { length lowered.old ≡ length places.now }
    requires bounded { AreBounded costs.old }
    ensures step { IsCostStep (Goes places.now closed.now banned.now) costs.old costs.new }
    ensures settled { AreArcsSettled (Goes places.now closed.now banned.now)
        (λ p. is_place_marked lowered.old p ≡ false) costs.old →
        AreArcsSettled (Goes places.now closed.now banned.now)
        (λ p. is_place_marked lowered.new p ≡ false) costs.new }
    ensures none { result ≡ false → (p : ℕ) → is_place_marked lowered.new p ≡ false }
    ensures falls { result ≡ true → sum_by height costs.new < sum_by height costs.old }
{
    let mut changed = false;
    for place in 0..places.len() {
        if visit(places, closed, banned, place, costs, lowered) {
            changed = true;
        }
    }
    changed
}

// Lowers costs along the arcs of a place whose cost was lowered. Whether any was lowered.
fn visit(
    places: &[Place],
    closed: &[bool],
    banned: &[NodeId],
    place: usize,
    costs: &mut [Option<u32>],
    lowered: &mut [bool],
) -> bool
    requires sound { AreSound (length closed.now) places.now }
    requires place { place < length places.now }
    requires costs { length costs.old ≡ length places.now }
    requires lowered { length lowered.old ≡ length places.now }
    requires bounded { AreBounded costs.old }
    ensures step { IsCostStep (Goes places.now closed.now banned.now) costs.old costs.new }
    ensures settled { AreArcsSettled (Goes places.now closed.now banned.now)
        (λ p. is_place_marked lowered.old p ≡ false) costs.old →
        AreArcsSettled (Goes places.now closed.now banned.now)
        (λ p. is_place_marked lowered.new p ≡ false) costs.new }
    ensures kept { result ≡ false → costs.new ≡ costs.old }
    ensures off { result ≡ false → is_place_marked lowered.new place ≡ false }
    ensures none { result ≡ false → (p : ℕ) → is_place_marked lowered.old p ≡ false →
        is_place_marked lowered.new p ≡ false }
    ensures falls { result ≡ true → sum_by height costs.new < sum_by height costs.old }
{
    if !lowered[place] {
        return false;
    }
    lowered[place] = false;
    relax(places, closed, banned, place, costs, lowered)
}

// Lowers costs along the arcs of a place, and marks where. Whether any was lowered.
fn relax(
    places: &[Place],
    closed: &[bool],
    banned: &[NodeId],
    place: usize,
    costs: &mut [Option<u32>],
    lowered: &mut [bool],
) -> bool
    requires sound { AreSound (length closed.now) places.now }
    requires place { place < length places.now }
    requires costs { length costs.old ≡ length places.now }
    requires lowered { length lowered.old ≡ length places.now }
    requires bounded { AreBounded costs.old }
    ensures step { IsCostStep (Goes places.now closed.now banned.now) costs.old costs.new }
    ensures settled { AreArcsSettled (Goes places.now closed.now banned.now)
        (λ p. (p ≢ place) × (is_place_marked lowered.old p ≡ false)) costs.old →
        AreArcsSettled (Goes places.now closed.now banned.now)
        (λ p. is_place_marked lowered.new p ≡ false) costs.new }
    ensures kept { result ≡ false → (costs.new ≡ costs.old) × (lowered.new ≡ lowered.old) }
    ensures falls { result ≡ true → sum_by height costs.new < sum_by height costs.old }
{
    let Some(cost) = costs[place] else {
        return false;
    };
    let mut changed = false;
    for arc in &places[place].arcs {
        if lower(places, closed, banned, arc, cost, costs) {
            lowered[arc.head] = true;
            changed = true;
        }
    }
    changed
}

// Lowers the cost of the arc's head to that over the arc, if it is above and a walk may go there. Whether it was.
fn lower(
    places: &[Place],
    closed: &[bool],
    banned: &[NodeId],
    arc: &Arc,
    cost: u32,
    costs: &mut [Option<u32>],
) -> bool
    requires arc { IsArcWithin (length costs.old) (length closed.now) arc.now }
    requires costs { length costs.old ≡ length places.now }
    requires small { cost < 16777216 }
    ensures kept { result ≡ false → costs.new ≡ costs.old }
    ensures settled { result ≡ false → IsFree places.now closed.now banned.now arc.now →
        IsAtMostOver costs.old cost arc.now }
    ensures free { result ≡ true → IsFree places.now closed.now banned.now arc.now }
    ensures lowered { result ≡ true → IsLowered arc.now cost costs.old costs.new }
{
    let over = cost + arc.metric;
    if costs[arc.head].is_some_and(|least| least <= over) {
        return false;
    }
    if !is_free(places, closed, banned, arc) {
        return false;
    }
    costs[arc.head] = Some(over);
    true
}

//! The least route, traced from its start over tight arcs that lead to its end.

ghost use Rattle.std.specs.Prelude.{◌≡◌, ◌<◌, ◌≤◌, ◌↔◌, true, IfOk, IsTrue, MatchOption, length};
ghost use Rattle.ason_base.specs.declared.limits.TheConstants.{MOST_METRIC};
ghost use Rattle.route_least.specs.{Costs.{is_place_marked, AreSmall}, Marking.Crosses, Network.AreSound, Trace.{AreMarked, IsBestArc, IsLeading, IsTrace}};

use crate::places::{Arc, Place};
use ason_base::ids::OutOfMemory;
use ason_base::steps::{Step, Steps};
use std::alloc::Global;

/// The steps from the first of the two ends to the second, each over the least link that leads on.
pub(crate) fn follow(
    alloc: Global,
    places: &[Place],
    closed: &[bool],
    costs: &[Option<u32>],
    marks: &[bool],
    ends: (usize, usize),
) -> Result<Steps, OutOfMemory>
    requires sound { AreSound (length closed.now) places.now }
    requires costs { length costs.now ≡ length places.now }
    requires marks { length marks.now ≡ length places.now }
    requires small { AreSmall costs.now }
    requires marked { AreMarked (Crosses places.now closed.now) costs.now ends.1 marks.now }
    requires from { ends.0 < length places.now }
    requires leads { is_place_marked marks.now ends.0 ≡ true }
    ensures { IfOk result
        (λ route. IsTrace (Crosses places.now closed.now) costs.now marks.now places.now ends.0
        ends.1 route) }
{
    let mut route = Steps::new(alloc);
    let mut place = ends.0;
    while place != ends.1 {
        let arc = match best_arc(places, closed, costs, marks, place) {
            Some(arc) => arc,
            None => unreachable!(),
        };
        route.push(Step {
            node: places[place].node,
            link: arc.link,
        })?;
        place = arc.head;
    }
    Ok(route)
}

// Of the arcs that lead on from the place, that of the least link.
fn best_arc(
    places: &[Place],
    closed: &[bool],
    costs: &[Option<u32>],
    marks: &[bool],
    place: usize,
) -> Option<Arc>
    requires sound { AreSound (length closed.now) places.now }
    requires costs { length costs.now ≡ length places.now }
    requires marks { length marks.now ≡ length places.now }
    requires small { AreSmall costs.now }
    requires place { place < length places.now }
    ensures { IsBestArc (Crosses places.now closed.now) costs.now marks.now place result }
{
    let Some(cost) = costs[place] else {
        return None;
    };
    let mut best: Option<Arc> = None;
    for arc in &places[place].arcs {
        if leads_on(closed, costs, marks, cost, arc) && is_less(arc, &best) {
            best = Some(*arc);
        }
    }
    best
}

// Whether the arc's link is less than that of the other one, if there is one.
fn is_less(arc: &Arc, other: &Option<Arc>) -> bool
    ensures { IsTrue result ↔ MatchOption other.now (Unit {0}) (λ o. arc.now.link.0 < o.link.0) }
{
    match other {
        None => true,
        Some(other) => arc.link < other.link,
    }
}

// Whether the arc's row isn't closed, and the arc is tight from a place of this cost and leads to a marked place.
fn leads_on(closed: &[bool], costs: &[Option<u32>], marks: &[bool], cost: u32, arc: &Arc) -> bool
    requires row { arc.now.row < length closed.now }
    requires head { arc.now.head < length costs.now }
    requires marks { length marks.now ≡ length costs.now }
    requires cost { cost < 16777216 }
    requires metric { arc.now.metric ≤ MOST_METRIC }
    ensures { IsTrue result ↔ IsLeading closed.now costs.now marks.now cost arc.now }
{
    if closed[arc.row] || !marks[arc.head] {
        return false;
    }
    match costs[arc.head] {
        Some(over) => over == cost + arc.metric,
        None => false,
    }
}

//! A network prepared from rows, and the least routes in it.

ghost use Rattle.std.specs.{Prelude.{◌≡◌, ◌<◌, ℕ, List, IfErr, IfOk, MatchOption, Some, length}, List.Contains};
ghost use Rattle.ason_base.specs.{Walks.{HaveDistinctLinks, HaveFewEnds, HaveMetrics}, declared.network.TeRow.TeRow};
ghost use Rattle.route_least.specs.{Answers.{IsLeastFound, IsRefusal}, Costs.{cost_at, AreSmall}, Marking.Crosses, Network.{AreOnce, ArePlaces, AreSound, HasNode, IsClosed, IsNetworkOf, IsPrepared}, Searches.{IsFoundAlone, IsFoundFrom, IsMissedAlone, IsMissedFrom, IsReached, IsSearchable}, Trace.IsTraced};

use crate::answers::{Found, RouteFault};
use crate::costs::least_costs;
use crate::leading::leading;
use crate::lists::Potentials;
use crate::order::{NodePlace, order_of};
use crate::places::{GUESSES, Place, add_row, end_counts, place_of};
use crate::potentials::potentials_of;
use crate::trace::follow;
use ason_base::ids::{NodeId, OutOfMemory};
use ason_base::limits::MOST_NODES;
use ason_base::network::TeRow;
use ason_base::steps::Steps;
use std::alloc::Global;

/// The rows of a network, prepared for searches. It is good for as long as the rows are the same.
pub struct RouteNetwork {
    places: Vec<Place>,
    order: Vec<NodePlace>,
}

impl RouteNetwork {
    /// Prepares the rows. Metrics are 1 to 65,535, at most 64 nodes are ends of the rows, and no link is in two rows.
    pub fn new(alloc: Global, rows: &[TeRow]) -> Result<RouteNetwork, OutOfMemory>
        requires ends { HaveFewEnds rows.now }
        requires metrics { HaveMetrics rows.now }
        requires links { HaveDistinctLinks rows.now }
        ensures { IfOk result (IsNetworkOf rows.now) }
    {
        let places = places_of(alloc, rows)?;
        let order = order_of(alloc, &places)?;
        Ok(RouteNetwork { places, order })
    }

    /// The walk of least cost from the one node to the other that uses no closed row and visits no banned node after its start, and
    /// among those of that cost the one with the least list of links. `closed` has an entry for each of the rows that the network
    /// was prepared from, in their order. From a node to itself it is the walk without a step.
    pub fn least(
        &self,
        alloc: Global,
        from: NodeId,
        to: NodeId,
        closed: &[bool],
        banned: &[NodeId],
    ) -> Result<Found, RouteFault>
        requires { IsPrepared (length closed.now) self.now }
        ensures found { (rows : List TeRow) → IsNetworkOf rows self.now →
            IfOk result (IsLeastFound rows closed.now banned.now from to) }
        ensures none { (rows : List TeRow) → IsNetworkOf rows self.now →
            IfErr result (IsRefusal rows (IsClosed rows closed.now) (Contains banned.now) from to) }
    {
        match place_of(&self.places, from) {
            None => alone(alloc, from, to),
            Some(start) => least_from(alloc, self, start, to, closed, banned),
        }
    }
}

impl Drop for RouteNetwork {
    fn drop(self) {
        let RouteNetwork {
            places: _,
            order: _,
        } = self;
    }
}

// Room for the places of all nodes is taken at once. Each place has room for the arcs that it gets.
fn places_of(alloc: Global, rows: &[TeRow]) -> Result<Vec<Place>, OutOfMemory>
    ensures { IfOk result (λ places. ArePlaces rows.now (length rows.now) places.items) }
{
    let counts = end_counts(alloc, rows)?;
    let mut places = Vec::with_capacity(alloc, MOST_NODES)?;
    let mut guesses: Vec<usize> = vec![in alloc; usize::MAX; GUESSES as usize]?;
    for index in 0..rows.len() {
        add_row(
            alloc,
            &mut places,
            &mut guesses,
            &counts,
            &rows[index],
            index,
        )?;
    }
    Ok(places)
}

// From a node that no row has as an end only the walk without a step leads.
fn alone(alloc: Global, from: NodeId, to: NodeId) -> Result<Found, RouteFault>
    ensures ok { IfOk result (IsFoundAlone from to) }
    ensures err { IfErr result (IsMissedAlone from to) }
{
    let mut potential = Potentials::new(alloc);
    potential.push((from, 0))?;
    if from != to {
        return Err(RouteFault::NoRoute(potential));
    }
    Ok(Found {
        route: Steps::new(alloc),
        cost: 0,
        potential,
    })
}

// The least route from a node that has a place.
fn least_from(
    alloc: Global,
    network: &RouteNetwork,
    start: usize,
    to: NodeId,
    closed: &[bool],
    banned: &[NodeId],
) -> Result<Found, RouteFault>
    requires network { IsSearchable (length closed.now) network.now }
    requires start { start < length network.now.places.items }
    ensures ok { IfOk result (IsFoundFrom network.now closed.now banned.now start to) }
    ensures err { IfErr result (IsMissedFrom network.now closed.now banned.now start to) }
{
    let costs = least_costs(alloc, &network.places, closed, banned, start)?;
    let potential = potentials_of(alloc, &network.order, &costs)?;
    match cost_to(&network.places, &costs, to) {
        None => Err(RouteFault::NoRoute(potential)),
        Some((end, cost)) => {
            let route = least_route(alloc, &network.places, closed, &costs, (start, end))?;
            Ok(Found {
                route,
                cost,
                potential,
            })
        }
    }
}

// The place of the node and its cost, if it has both.
fn cost_to(places: &[Place], costs: &[Option<u32>], to: NodeId) -> Option<(usize, u32)>
    requires costs { length costs.now ≡ length places.now }
    requires once { AreOnce places.now }
    ensures { MatchOption result
        ((p cost : ℕ) → HasNode places.now p to → cost_at costs.now p ≡ Some cost → ⊥)
        (λ end. HasNode places.now end.0 to × (cost_at costs.now end.0 ≡ Some end.1)) }
{
    match place_of(places, to) {
        None => None,
        Some(end) => match costs[end] {
            None => None,
            Some(cost) => Some((end, cost)),
        },
    }
}

// The steps of the least route between the two ends, which arcs join.
fn least_route(
    alloc: Global,
    places: &[Place],
    closed: &[bool],
    costs: &[Option<u32>],
    ends: (usize, usize),
) -> Result<Steps, OutOfMemory>
    requires sound { AreSound (length closed.now) places.now }
    requires costs { length costs.now ≡ length places.now }
    requires small { AreSmall costs.now }
    requires from { ends.0 < length places.now }
    requires to { ends.1 < length places.now }
    requires leads { IsReached places.now closed.now costs.now ends.0 ends.1 }
    ensures { IfOk result
        (IsTraced (Crosses places.now closed.now) costs.now places.now ends.0 ends.1) }
{
    let marks = leading(alloc, places, closed, costs, ends.1)?;
    follow(alloc, places, closed, costs, &marks, ends)
}

//! What may be the partner of a route: the least route beside it, and bounds of what each costs.

ghost use Rattle.std.specs.{Prelude.{◌≡◌, ◌==◌, ◌&&◌, ◌||◌, ◌+◌, ◌<◌, ◌^◌, List, IfOk, OnOk, length}, List.list_any};
ghost use Rattle.ason_base.specs.declared.network.TeRow.{TeRow};
ghost use Rattle.route_least.specs.Network.{IsNetworkOf, IsPrepared};
ghost use Rattle.pair_search.specs.{Checks.{has_link, is_inner, may_partner, share}, Searches.{closed_rows, pair_of, AreEndBounds, HasOffered, HasWhole, IsPartner, IsPrefix, IsSearch, IsSoundPair}};

use crate::pairs::{RoutePair, keep_better};
use crate::prefixes::{Prefix, Search};
use ason_base::{Copied, LinkId, NodeId, OutOfMemory, Step, Steps, TeRow};
use route_least::{Found, Potentials, RouteFault, RouteNetwork};
use std::alloc::Global;

fn has_common(a: &[u32], b: &[u32]) -> bool
    ensures { result ≡ list_any (λ s. list_any (λ r. r == s) b.now) a.now }
{
    a.iter().any(|s| b.contains(s))
}

fn shares_risk(a: &TeRow, b: &TeRow) -> bool
    ensures { result ≡ share a.now b.now }
{
    a.link == b.link || has_common(a.srlgs.items(), b.srlgs.items())
}

fn passes(route: &[Step], link: LinkId) -> bool
    ensures { result ≡ has_link route.now link }
{
    route.iter().any(|step| step.link == link)
}

fn endangers(route: &[Step], row: &TeRow, other: &TeRow) -> bool
    ensures { result ≡ (has_link route.now other.now.link && share row.now other.now) }
{
    passes(route, other.link) && shares_risk(row, other)
}

// Whether a link of the route has a risk of the row.
fn is_endangered(rows: &[TeRow], route: &[Step], row: &TeRow) -> bool
    ensures { result ≡ list_any (λ other. has_link route.now other.link && share row.now other) rows.now }
{
    rows.iter().any(|other| endangers(route, row, other))
}

fn leaves(route: &[Step], node: NodeId) -> bool
    ensures { result ≡ list_any (λ s. s.node.0 == node.0) route.now }
{
    route.iter().any(|step| step.node == node)
}

fn is_inside(search: &Search<'_>, route: &[Step], node: NodeId) -> bool
    ensures { result ≡ is_inner search.now.from search.now.to route.now node }
{
    leaves(route, node) && node != search.from && node != search.to
}

// Whether a partner of the route may use the row.
fn is_free(search: &Search<'_>, route: &[Step], row: &TeRow) -> bool
    ensures { result ≡ may_partner search.now.rows route.now search.now.from search.now.to row.now }
{
    !is_endangered(search.rows, route, row)
        && !is_inside(search, route, row.low)
        && !is_inside(search, route, row.high)
}

// For each row whether a partner of the route mustn't use it.
fn closed_to_partners(
    alloc: Global,
    search: &Search<'_>,
    route: &[Step],
) -> Result<Vec<bool>, OutOfMemory>
    ensures { IfOk result (λ closed. closed.items ≡ closed_rows search.now route.now) }
{
    let mut closed = Vec::with_capacity(alloc, search.rows.len())?;
    for row in search.rows {
        closed.push(!is_free(search, route, row))?;
    }
    Ok(closed)
}

// The least of all partners of the route.
fn partner_of(
    alloc: Global,
    search: &Search<'_>,
    route: &Steps,
    closed: &[bool],
) -> Result<Option<Found>, OutOfMemory>
    requires search { IsSearch search.now }
    requires closed { closed.now ≡ closed_rows search.now route.now }
    ensures { IfOk result (IsPartner search.now route.now) }
{
    match search
        .network
        .least(alloc, search.from, search.to, closed, &[])
    {
        Ok(found) => Ok(Some(found)),
        Err(RouteFault::NoRoute(_)) => Ok(None),
        Err(RouteFault::OutOfMemory) => Err(OutOfMemory),
    }
}

/// The least costs to the end of the search over the rows that aren't closed.
pub(crate) fn end_bounds(
    alloc: Global,
    network: &RouteNetwork,
    ends: (NodeId, NodeId),
    closed: &[bool],
) -> Result<Potentials, OutOfMemory>
    requires { IsPrepared (length closed.now) network.now }
    ensures { (rows : List TeRow) → IsNetworkOf rows network.now →
        IfOk result (AreEndBounds rows closed.now ends.0 ends.1) }
{
    let (from, to) = ends;
    match network.least(alloc, to, from, closed, &[]) {
        Ok(found) => Ok(found.potential),
        Err(RouteFault::NoRoute(potential)) => Ok(potential),
        Err(RouteFault::OutOfMemory) => Err(OutOfMemory),
    }
}

// The route with its partner. The cheaper one is the primary.
fn pair_of(route: Steps, cost: u32, partner: Found) -> RoutePair
    requires { cost + partner.cost < 2 ^ 32 }
    ensures { result ≡ pair_of route cost partner }
{
    let total = cost + partner.cost;
    if cost <= partner.cost {
        RoutePair {
            primary: route,
            backup: partner.route,
            total,
        }
    } else {
        RoutePair {
            primary: partner.route,
            backup: route,
            total,
        }
    }
}

// Keeps the route with its least partner where that pair is better than the best one so far.
fn offer(
    alloc: Global,
    search: &Search<'_>,
    prefix: &Prefix,
    closed: &[bool],
    best: &mut Option<RoutePair>,
) -> Result<(), OutOfMemory>
    requires search { IsSearch search.now }
    requires prefix { IsPrefix search.now prefix.now }
    requires end { prefix.now.at ≡ search.now.to }
    requires closed { closed.now ≡ closed_rows search.now prefix.now.done }
    requires sound { IsSoundPair search.now best.old }
    ensures { OnOk result (HasOffered search.now prefix.now best.old best.new) }
{
    let Some(partner) = partner_of(alloc, search, &prefix.done, closed)? else {
        return Ok(());
    };
    let route = prefix.done.copy(alloc)?;
    keep_better(best, pair_of(route, prefix.cost, partner));
    Ok(())
}

/// Takes the prefix, which has come to the end, as a route, and gives the bounds of its partners.
pub(crate) fn take_whole(
    alloc: Global,
    search: &Search<'_>,
    prefix: &Prefix,
    best: &mut Option<RoutePair>,
) -> Result<Potentials, OutOfMemory>
    requires search { IsSearch search.now }
    requires prefix { IsPrefix search.now prefix.now }
    requires end { prefix.now.at ≡ search.now.to }
    requires sound { IsSoundPair search.now best.old }
    ensures { IfOk result (HasWhole search.now prefix.now best.old best.new) }
{
    let closed = closed_to_partners(alloc, search, prefix.done.items())?;
    offer(alloc, search, prefix, &closed, best)?;
    end_bounds(alloc, search.network, (search.from, search.to), &closed)
}

//! A walk by depth over the prefixes of all routes. A prefix is cut off where what is left costs so much that no pair
//! of it is better than the best one so far.

ghost use Rattle.std.specs.{Prelude.{◌≡◌, ◌==◌, false, None, IfErr, IfOk, replicate}, List.list_any};
ghost use Rattle.route_least.specs.Network.{IsNetworkOf};
ghost use Rattle.pair_search.specs.{Answers.IsSmall, declared.answers.BestFault.BestFault, Certificates.{RowLeadsOn, bound_at}, Checks.{far_end, is_far, onward}, Searches.{over, total_of, AreRows, HasChildren, HasTree, IsFoundBest, IsPrefix, IsSearch, IsSearched, IsSoundPair}};

use crate::answers::{Best, BestFault};
use crate::cert::{Cert, Children, Tree};
use crate::pairs::RoutePair;
use crate::partners::{end_bounds, take_whole};
use ason_base::{Copied, NodeId, OutOfMemory, Step, Steps, TeRow};
use route_least::{Potentials, RouteNetwork};
use std::alloc::Global;
use std::marker::Model;

/// The rows, the two nodes that a pair joins, and bounds of what is left to the second of them.
#[derive(Drop)]
pub(crate) struct Search<'a> {
    pub(crate) network: &'a RouteNetwork,
    pub(crate) rows: &'a [TeRow],
    pub(crate) from: NodeId,
    pub(crate) to: NodeId,
    pub(crate) goal: &'a Potentials,
}

impl<'a> Model for Search<'a> {
    ghost use Rattle.pair_search.specs.Searches as searches;

    ghost Value = { searches.Search };

    ghost view = { λ s. record {
      network = s.network.now;
      rows = s.rows.now;
      from = s.from;
      to = s.to;
      goal = s.goal.now;
    } };
}

/// The first steps of a route, the node to which they lead, and what they cost.
pub(crate) struct Prefix {
    pub(crate) done: Steps,
    pub(crate) at: NodeId,
    pub(crate) cost: u32,
}

impl Drop for Prefix {
    fn drop(self) {
        let Prefix {
            done: _,
            at: _,
            cost: _,
        } = self;
    }
}

fn bound_of(potentials: &Potentials, node: NodeId) -> Option<u32>
    ensures { result ≡ bound_at potentials.now node }
{
    match potentials.items().iter().find(|entry| entry.0 == node) {
        None => None,
        Some(entry) => Some(entry.1),
    }
}

// Whether no pair whose primary route begins so is as good as the best one so far.
fn is_far(search: &Search<'_>, prefix: &Prefix, best: &Option<RoutePair>) -> bool
    ensures { result ≡ is_far (total_of best.now)
        (bound_at search.now.goal prefix.now.at) prefix.now.cost }
{
    match (best, bound_of(search.goal, prefix.at)) {
        (_, None) => true,
        (None, Some(_)) => false,
        (Some(pair), Some(left)) => {
            u64::from(pair.total) < 2 * (u64::from(prefix.cost) + u64::from(left))
        }
    }
}

fn other_end(row: &TeRow, node: NodeId) -> Option<NodeId>
    ensures { result ≡ far_end row.now node }
{
    if row.low == node {
        Some(row.high)
    } else if row.high == node {
        Some(row.low)
    } else {
        None
    }
}

fn is_left(steps: &Steps, node: NodeId) -> bool
    ensures { result ≡ list_any (λ s. s.node.0 == node.0) steps.now }
{
    steps.items().iter().any(|step| step.node == node)
}

// The node that the row leads to from the end of the prefix, if it isn't visited.
fn next_over(prefix: &Prefix, row: &TeRow) -> Option<NodeId>
    ensures { result ≡ onward prefix.now.done prefix.now.at row.now }
{
    match other_end(row, prefix.at) {
        None => None,
        Some(next) => {
            if next == prefix.at || is_left(&prefix.done, next) {
                None
            } else {
                Some(next)
            }
        }
    }
}

// The prefix with a step more.
fn longer(
    alloc: Global,
    search: &Search<'_>,
    prefix: &Prefix,
    row: &TeRow,
    next: NodeId,
) -> Result<Prefix, OutOfMemory>
    requires search { IsSearch search.now }
    requires prefix { IsPrefix search.now prefix.now }
    requires leads { RowLeadsOn search.now.rows prefix.now.done prefix.now.at row.now next }
    ensures { IfOk result (λ r. r ≡ over prefix.now row.now next) }
{
    let mut done = prefix.done.copy(alloc)?;
    done.push(Step {
        node: prefix.at,
        link: row.link,
    })?;
    let cost = prefix.cost + row.metric;
    Ok(Prefix {
        done,
        at: next,
        cost,
    })
}

// What stands at the prefix, and the best pair of those so far and those whose primary route begins so.
#[cycle(explore)]
fn explore(
    alloc: Global,
    search: &Search<'_>,
    prefix: &Prefix,
    best: &mut Option<RoutePair>,
) -> Result<Tree, OutOfMemory>
    requires search { IsSearch search.now }
    requires prefix { IsPrefix search.now prefix.now }
    requires sound { IsSoundPair search.now best.old }
    ensures { IfOk result (HasTree search.now prefix.now best.old best.new) }
{
    if is_far(search, prefix, best) {
        return Ok(Tree::Far);
    }
    if prefix.at == search.to {
        let bounds = take_whole(alloc, search, prefix, best)?;
        return Ok(Tree::Whole(bounds));
    }
    let children = branch(alloc, search, prefix, search.rows, best)?;
    Ok(Tree::Branch(Box::new(alloc, children)?))
}

// The same for the prefixes that go on over these rows.
#[cycle(explore)]
fn branch(
    alloc: Global,
    search: &Search<'_>,
    prefix: &Prefix,
    rows: &[TeRow],
    best: &mut Option<RoutePair>,
) -> Result<Children, OutOfMemory>
    requires search { IsSearch search.now }
    requires prefix { IsPrefix search.now prefix.now }
    requires rows { AreRows search.now rows.now }
    requires sound { IsSoundPair search.now best.old }
    ensures { IfOk result (HasChildren search.now prefix.now rows.now best.old best.new) }
{
    match rows {
        [] => Ok(Children::End),
        [row, rest @ ..] => {
            let Some(next) = next_over(prefix, row) else {
                return branch(alloc, search, prefix, rest, best);
            };
            let onward = longer(alloc, search, prefix, row, next)?;
            let tree = explore(alloc, search, &onward, best)?;
            let others = branch(alloc, search, prefix, rest, best)?;
            Ok(Children::More(row.link, tree, Box::new(alloc, others)?))
        }
    }
}

fn no_rows(alloc: Global, count: usize) -> Result<Vec<bool>, OutOfMemory>
    ensures { IfOk result (λ closed. closed.items ≡ replicate count false) }
{
    let closed: Vec<bool> = vec![in alloc; false; count]?;
    Ok(closed)
}

/// The best pair of all, if there is one, and what shows it.
pub(crate) fn search_rows(
    alloc: Global,
    network: &RouteNetwork,
    rows: &[TeRow],
    from: NodeId,
    to: NodeId,
) -> Result<(Option<RoutePair>, Cert), OutOfMemory>
    requires network { IsNetworkOf rows.now network.now }
    requires small { IsSmall rows.now }
    ensures { IfOk result (λ r. IsSearched rows.now from to r.0 r.1) }
{
    let closed = no_rows(alloc, rows.len())?;
    let goal = end_bounds(alloc, network, (from, to), &closed)?;
    let search = Search {
        network,
        rows,
        from,
        to,
        goal: &goal,
    };
    let start = Prefix {
        done: Steps::new(alloc),
        at: from,
        cost: 0,
    };
    let mut best = None;
    let tree = explore(alloc, &search, &start, &mut best)?;
    Ok((best, Cert { goal, tree }))
}

/// The pair with its certificate, or none with one.
pub(crate) fn found_or_none(pair: Option<RoutePair>, cert: Cert) -> Result<Best, BestFault>
    ensures best { IfOk result (IsFoundBest pair cert) }
    ensures none { IfErr result (λ fault. (pair ≡ None) × (fault ≡ BestFault.NoPair cert)) }
{
    match pair {
        None => Err(BestFault::NoPair(cert)),
        Some(pair) => Ok(Best {
            primary: pair.primary,
            backup: pair.backup,
            total: pair.total,
            cert,
        }),
    }
}

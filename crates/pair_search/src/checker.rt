//! The checker of certificates. It shares no code with the search.

ghost use Rattle.std.specs.{Prelude.{◌≡◌, ◌≤◌, ◌<◌, ◌^◌, ◌==◌, ◌*◌, ◌||◌, ◌++◌, ◌∷◌, [], ◌&&◌, ◌↔◌, not, true, IfOk, length}, List.{find, list_all, list_any}, Option.option_copied};
ghost use Rattle.ason_base.specs.Walks.{HaveDistinctLinks};
ghost use Rattle.pair_search.specs.{Checks.{are_bounds, are_partner_bounds, are_told, far_end, has_child, has_link, is_enough, is_far, is_inner, is_row_within, is_told, is_visited, is_within, is_zero, may_partner, next_over, onward, passes, share, with_metric}, Certificates.{Certifies, bound_at}, Claims.{all_stand, tree_stands}};

use crate::cert::{Cert, Children, Tree};
use crate::laws::checks_are_exact;
use ason_base::lists::Srlgs;
use ason_base::network::TeRow;
use ason_base::steps::Step;
use ason_base::{LinkId, NodeId, OutOfMemory};
use route_least::Potentials;
use std::alloc::Global;
use std::marker::Model;

/// What a certificate is to show: that no pair between the two nodes has a lesser total, or that there is none.
#[derive(Drop)]
struct Claim<'a> {
    rows: &'a [TeRow],
    from: NodeId,
    to: NodeId,
    total: Option<u32>,
    goal: &'a Potentials,
}

impl<'a> Model for Claim<'a> {
    ghost use Rattle.pair_search.specs.Claims as claims;

    ghost Value = { claims.Claim };

    ghost view = { λ c. record {
      rows = c.rows.now;
      from = c.from;
      to = c.to;
      total = c.total;
      goal = c.goal.now;
    } };
}

/// A place in the tree: the first steps of a route, the node to which they lead, and what they cost.
struct Place {
    done: Vec<Step>,
    at: NodeId,
    cost: u128,
}

impl Drop for Place {
    fn drop(self) {
        let Place {
            done: _,
            at: _,
            cost: _,
        } = self;
    }
}

fn bound_at(bounds: &Potentials, node: NodeId) -> Option<u32>
    ensures { result ≡ bound_at bounds.now node }
{
    match bounds.items().iter().find(|bound| bound.0 == node) {
        None => None,
        Some(bound) => Some(bound.1),
    }
}

fn is_within(a: Option<u32>, b: Option<u32>, metric: u32) -> bool
    ensures { result ≡ is_within a b metric }
{
    match (a, b) {
        (_, None) => true,
        (None, Some(_)) => false,
        (Some(a), Some(b)) => u64::from(a) <= u64::from(b) + u64::from(metric),
    }
}

fn is_row_within(bounds: &Potentials, row: &TeRow) -> bool
    ensures { result ≡ is_row_within bounds.now row.now }
{
    let low = bound_at(bounds, row.low);
    let high = bound_at(bounds, row.high);
    is_within(low, high, row.metric) && is_within(high, low, row.metric)
}

fn is_zero(bound: Option<u32>) -> bool
    ensures { result ≡ is_zero bound }
{
    match bound {
        None => false,
        Some(n) => n == 0,
    }
}

fn are_bounds(rows: &[TeRow], to: NodeId, bounds: &Potentials) -> bool
    ensures { result ≡ are_bounds rows.now to bounds.now }
{
    is_zero(bound_at(bounds, to)) && are_within(rows, bounds)
}

fn are_within(rows: &[TeRow], bounds: &Potentials) -> bool
    ensures { result ≡ list_all (is_row_within bounds.now) rows.now }
{
    rows.iter().all(|row| is_row_within(bounds, row))
}

fn is_far(total: Option<u32>, bound: Option<u32>, cost: u128) -> bool
    requires { cost < 2 ^ 100 }
    ensures { result ≡ is_far total bound cost }
{
    match (total, bound) {
        (_, None) => true,
        (None, Some(_)) => false,
        (Some(total), Some(b)) => u128::from(total) < 2 * (cost + u128::from(b)),
    }
}

fn is_enough(total: Option<u32>, bound: Option<u32>, cost: u128) -> bool
    requires { cost < 2 ^ 100 }
    ensures { result ≡ is_enough total bound cost }
{
    match (total, bound) {
        (_, None) => true,
        (None, Some(_)) => false,
        (Some(total), Some(b)) => u128::from(total) <= cost + u128::from(b),
    }
}

// Rows that a partner may use

fn has_srlg(srlgs: &Srlgs, srlg: u32) -> bool
    ensures { result ≡ list_any (λ r. r == srlg) srlgs.now }
{
    srlgs.items().iter().any(|r| *r == srlg)
}

fn share_srlg(a: &Srlgs, b: &Srlgs) -> bool
    ensures { result ≡ list_any (λ s. list_any (λ r. r == s) b.now) a.now }
{
    a.items().iter().any(|s| has_srlg(b, *s))
}

fn share(a: &TeRow, b: &TeRow) -> bool
    ensures { result ≡ share a.now b.now }
{
    a.link == b.link || share_srlg(&a.srlgs, &b.srlgs)
}

fn has_link(steps: &[Step], link: LinkId) -> bool
    ensures { result ≡ has_link steps.now link }
{
    steps.iter().any(|s| s.link == link)
}

fn meets(done: &[Step], row: &TeRow, other: &TeRow) -> bool
    ensures { result ≡ (has_link done.now other.now.link && share row.now other.now) }
{
    has_link(done, other.link) && share(row, other)
}

fn shares_risk(rows: &[TeRow], done: &[Step], row: &TeRow) -> bool
    ensures { result ≡ list_any (λ other. has_link done.now other.link && share row.now other) rows.now }
{
    rows.iter().any(|other| meets(done, row, other))
}

fn is_inner(from: NodeId, to: NodeId, steps: &[Step], node: NodeId) -> bool
    ensures { result ≡ is_inner from to steps.now node }
{
    is_left(steps, node) && (node != from && node != to)
}

fn may_partner(rows: &[TeRow], done: &[Step], from: NodeId, to: NodeId, row: &TeRow) -> bool
    ensures { result ≡ may_partner rows.now done.now from to row.now }
{
    !shares_risk(rows, done, row)
        && (!is_inner(from, to, done, row.low) && !is_inner(from, to, done, row.high))
}

fn is_kept(
    rows: &[TeRow],
    done: &[Step],
    from: NodeId,
    to: NodeId,
    bounds: &Potentials,
    row: &TeRow,
) -> bool
    ensures { result ≡ (not (may_partner rows.now done.now from to row.now) || is_row_within bounds.now row.now) }
{
    !may_partner(rows, done, from, to, row) || is_row_within(bounds, row)
}

fn are_kept(rows: &[TeRow], done: &[Step], from: NodeId, to: NodeId, bounds: &Potentials) -> bool
    ensures { result ≡ list_all (λ row. not (may_partner rows.now done.now from to row)
        || is_row_within bounds.now row) rows.now }
{
    rows.iter()
        .all(|row| is_kept(rows, done, from, to, bounds, row))
}

fn are_partner_bounds(
    rows: &[TeRow],
    done: &[Step],
    from: NodeId,
    to: NodeId,
    bounds: &Potentials,
) -> bool
    ensures { result ≡ are_partner_bounds rows.now done.now from to bounds.now }
{
    is_zero(bound_at(bounds, to)) && are_kept(rows, done, from, to, bounds)
}

// A prefix that has come to the end is a route of which no partner makes a lesser total.
fn is_whole(claim: &Claim<'_>, place: &Place, bounds: &Potentials) -> bool
    requires { place.now.cost < 2 ^ 100 }
    ensures { result ≡ (are_partner_bounds claim.now.rows place.now.done.items claim.now.from claim.now.to bounds.now
        && is_enough claim.now.total (bound_at bounds.now claim.now.from) place.now.cost) }
{
    are_partner_bounds(claim.rows, &place.done, claim.from, claim.to, bounds)
        && is_enough(claim.total, bound_at(bounds, claim.from), place.cost)
}

fn far_end(row: &TeRow, at: NodeId) -> Option<NodeId>
    ensures { result ≡ far_end row.now at }
{
    if row.low == at {
        Some(row.high)
    } else if row.high == at {
        Some(row.low)
    } else {
        None
    }
}

fn is_visited(done: &[Step], at: NodeId, node: NodeId) -> bool
    ensures { result ≡ is_visited done.now at node }
{
    node == at || is_left(done, node)
}

// One of the steps leaves the node.
fn is_left(done: &[Step], node: NodeId) -> bool
    ensures { result ≡ list_any (λ s. s.node.0 == node.0) done.now }
{
    done.iter().any(|s| s.node == node)
}

fn onward(done: &[Step], at: NodeId, row: &TeRow) -> Option<NodeId>
    ensures { result ≡ onward done.now at row.now }
{
    match far_end(row, at) {
        None => None,
        Some(node) => {
            if is_visited(done, at, node) {
                None
            } else {
                Some(node)
            }
        }
    }
}

fn has_child(children: &Children, link: LinkId) -> bool
    ensures { result ≡ has_child children.now link }
{
    match children {
        Children::End => false,
        Children::More(own, _, rest) => *own == link || has_child(rest, link),
    }
}

fn is_told(done: &[Step], at: NodeId, children: &Children, row: &TeRow) -> bool
    ensures { result ≡ is_told done.now at children.now row.now }
{
    match onward(done, at, row) {
        None => true,
        Some(_) => has_child(children, row.link),
    }
}

fn are_told(rows: &[TeRow], done: &[Step], at: NodeId, children: &Children) -> bool
    ensures { result ≡ are_told rows.now done.now at children.now }
{
    rows.iter().all(|row| is_told(done, at, children, row))
}

fn find_row(rows: &[TeRow], link: LinkId) -> Option<&TeRow>
    ensures { option_copied result ≡ find (λ row. row.link.0 == link.0) rows.now }
{
    rows.iter().find(|row| row.link == link)
}

fn over(done: &[Step], at: NodeId, row: &TeRow) -> Option<(NodeId, u32)>
    ensures { result ≡ with_metric (onward done.now at row.now) row.now.metric }
{
    match onward(done, at, row) {
        None => None,
        Some(node) => Some((node, row.metric)),
    }
}

fn next_over(rows: &[TeRow], done: &[Step], at: NodeId, link: LinkId) -> Option<(NodeId, u32)>
    ensures { result ≡ next_over rows.now done.now at link }
{
    match find_row(rows, link) {
        None => None,
        Some(row) => over(done, at, row),
    }
}

fn with_step(alloc: Global, done: &[Step], step: Step) -> Result<Vec<Step>, OutOfMemory>
    ensures { IfOk result (λ longer. longer.items ≡ done.now ++ step ∷ []) }
{
    let mut longer = Vec::from_slice(alloc, done)?;
    longer.push(step)?;
    Ok(longer)
}

// Whether what the tree says of the routes that begin so is right.
#[cycle(stand)]
fn stands(alloc: Global, claim: &Claim<'_>, tree: &Tree, place: &Place) -> Result<bool, OutOfMemory>
    requires { place.now.cost ≤ 2 ^ 32 * length place.now.done.items }
    ensures { IfOk result (λ b. b ≡ tree_stands claim.now tree.now place.now) }
{
    let _steps = place.done.len();
    match tree {
        Tree::Far => Ok(is_far(claim.total, bound_at(claim.goal, place.at), place.cost)),
        Tree::Whole(bounds) => Ok(place.at == claim.to && is_whole(claim, place, bounds)),
        Tree::Branch(children) => {
            if place.at == claim.to || !are_told(claim.rows, &place.done, place.at, children) {
                return Ok(false);
            }
            children_stand(alloc, claim, children, place)
        }
    }
}

#[cycle(stand)]
fn children_stand(
    alloc: Global,
    claim: &Claim<'_>,
    children: &Children,
    place: &Place,
) -> Result<bool, OutOfMemory>
    requires { place.now.cost ≤ 2 ^ 32 * length place.now.done.items }
    ensures { IfOk result (λ b. b ≡ all_stand claim.now children.now place.now) }
{
    match children {
        Children::End => Ok(true),
        Children::More(link, tree, rest) => {
            if has_child(rest, *link) {
                return Ok(false);
            }
            let Some((next, metric)) = next_over(claim.rows, &place.done, place.at, *link) else {
                return Ok(false);
            };
            let step = Step {
                node: place.at,
                link: *link,
            };
            let further = Place {
                done: with_step(alloc, &place.done, step)?,
                at: next,
                cost: place.cost + u128::from(metric),
            };
            if !stands(alloc, claim, tree, &further)? {
                return Ok(false);
            }
            children_stand(alloc, claim, rest, place)
        }
    }
}

/// Whether the certificate certifies the total, or without one that there is no pair.
pub fn verify(
    alloc: Global,
    rows: &[TeRow],
    from: NodeId,
    to: NodeId,
    total: Option<u32>,
    cert: &Cert,
) -> Result<bool, OutOfMemory>
    requires { HaveDistinctLinks rows.now }
    ensures checks { IfOk result (λ b. b ≡ passes rows.now from to total cert.now) }
    ensures certifies { IfOk result (λ b. (b ≡ true) ↔ Certifies rows.now from to total cert.now) }
{
    checks_are_exact();
    if !are_bounds(rows, to, &cert.goal) {
        return Ok(false);
    }
    let claim = Claim {
        rows,
        from,
        to,
        total,
        goal: &cert.goal,
    };
    let start = Place {
        done: Vec::new(alloc),
        at: from,
        cost: 0,
    };
    stands(alloc, &claim, &cert.tree, &start)
}

//! Routes in a topology: where they lead, the risks and the nodes that they share.

ghost use Rattle.std.specs.{Prelude.{◌≡◌, ◌==◌, ◌∷◌, ◌++◌, [], drop}, List.list_any, Option.option_copied};
ghost use Rattle.ason_base.specs.{Network.{find_link, is_distinct, other_end, touches}, Routes.{across, is_beside, is_end, makes_route, nodes_of, one_step, route_end, routes_share_node, routes_share_risk, shares_risk}};

use crate::ids::NodeId;
use crate::network::{LinkSpec, Topology};
use crate::steps::{Step, Steps};

/// Whether the node is an end of the link.
pub fn touches(n: NodeId, link: &LinkSpec) -> bool
    ensures { result ≡ touches n link.now }
{
    link.low == n || link.high == n
}

/// The other end of a link of the node.
pub fn other_end(link: &LinkSpec, n: NodeId) -> NodeId
    ensures { result ≡ other_end link.now n }
{
    if link.low == n { link.high } else { link.low }
}

fn across(link: Option<&LinkSpec>, n: NodeId) -> Option<NodeId>
    ensures { result ≡ across (option_copied link.entry) n }
{
    match link {
        None => None,
        Some(link) => {
            if touches(n, link) {
                Some(other_end(link, n))
            } else {
                None
            }
        }
    }
}

fn one_step(t: &Topology, from: Option<NodeId>, hop: Step) -> Option<NodeId>
    ensures { result ≡ one_step t.now from hop }
{
    match from {
        None => None,
        Some(n) => {
            if hop.node == n {
                across(t.link(hop.link), n)
            } else {
                None
            }
        }
    }
}

/// Where a route leads from this node: none where a step isn't over a link of the node that it has come to.
#[tactic(auto, using(std::proofs::lemmas::List::Sums::fold_more))]
pub fn route_end(t: &Topology, from: NodeId, route: &[Step]) -> Option<NodeId>
    ensures { result ≡ route_end t.now from route.now }
{
    let mut end = Some(from);
    for hop in route {
        end = one_step(t, end, *hop);
    }
    end
}

fn is_end(end: Option<NodeId>, to: NodeId) -> bool
    ensures { result ≡ is_end end to }
{
    match end {
        None => false,
        Some(n) => n == to,
    }
}

// Whether a step is of this node.
fn visits(route: &[Step], n: NodeId) -> bool
    ensures { result ≡ list_any (λ h. h.node.0 == n.0) route.now }
{
    route.iter().any(|hop| hop.node == n)
}

// Whether the route's nodes and its last one are distinct.
fn is_apart(route: &[Step], to: NodeId) -> bool
    ensures { result ≡ is_distinct (nodes_of route.now ++ to.0 ∷ []) }
{
    for i in 0..route.len() {
        let n = route[i].node;
        if to == n || visits(&route[i + 1..], n) {
            return false;
        }
    }
    true
}

/// Whether the route leads from one node to the other, with no node twice.
pub fn makes_route(t: &Topology, from: NodeId, to: NodeId, route: &[Step]) -> bool
    ensures { result ≡ makes_route t.now from to route.now }
{
    is_end(route_end(t, from, route), to) && is_apart(route, to)
}

// Risks

fn have_common_number(a: &[u32], b: &[u32]) -> bool
    ensures { result ≡ list_any (λ s. list_any (λ r. r == s) b.now) a.now }
{
    a.iter().any(|s| b.contains(s))
}

fn shares_risk(a: Option<&LinkSpec>, b: Option<&LinkSpec>) -> bool
    ensures { result ≡ shares_risk (option_copied a.entry) (option_copied b.entry) }
{
    match (a, b) {
        (Some(a), Some(b)) => a.id == b.id || have_common_number(a.srlgs.items(), b.srlgs.items()),
        _ => false,
    }
}

fn shares_risk_with(t: &Topology, link: Option<&LinkSpec>, route: &[Step]) -> bool
    ensures { result ≡ list_any
        (λ k. shares_risk (option_copied link.entry) (find_link t.now k.link)) route.now }
{
    route.iter().any(|hop| shares_risk(link, t.link(hop.link)))
}

/// Whether a link of one route is one of the other, or has an SRLG in common with one.
pub fn routes_share_risk(t: &Topology, a: &[Step], b: &[Step]) -> bool
    ensures { result ≡ routes_share_risk t.now a.now b.now }
{
    a.iter().any(|hop| shares_risk_with(t, t.link(hop.link), b))
}

fn after_first(route: &[Step]) -> &[Step]
    ensures { result.now ≡ drop 1 route.now }
{
    route.get(1..).unwrap_or(&[])
}

fn share_node(a: &[Step], b: &[Step]) -> bool
    ensures { result ≡ list_any (λ h. list_any (λ k. k.node.0 == h.node.0) b.now) a.now }
{
    a.iter().any(|hop| visits(b, hop.node))
}

/// Whether a node other than the ends is on both routes.
pub fn routes_share_node(a: &[Step], b: &[Step]) -> bool
    ensures { result ≡ routes_share_node a.now b.now }
{
    share_node(after_first(a), after_first(b))
}

/// Whether the backup route stands beside the working route: it leads from one node to the other, with no node twice, is
/// risk-disjoint from the working route and shares no inner node with it.
pub fn is_beside(
    t: &Topology,
    from: NodeId,
    to: NodeId,
    via: Option<&Steps>,
    backup: &[Step],
) -> bool
    ensures { result ≡ is_beside t.now from to (option_copied via.entry) backup.now }
{
    match via {
        None => false,
        Some(via) => {
            makes_route(t, from, to, backup)
                && !routes_share_risk(t, via.items(), backup)
                && !routes_share_node(via.items(), backup)
        }
    }
}

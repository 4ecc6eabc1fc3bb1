//! Least routes over the rows of known links, with every node's potential.
//!
//! - `least`: the walks that count use no banned link and visit no banned node after the start. With Ok the route has
//!   the least cost of them, and among those the least list of links (`route`).
//! - The potentials are the least costs of such walks to each node (`potential`), and they certify the route
//!   (`certificate`). `NoRoute` comes only when no such walk joins the ends, and it has all potentials (`none`).
//! - `least` asks that at most 64 nodes are ends (`ends`), that metrics are 1 to 65,535 (`metrics`), and that no link
//!   is in two rows (`links`).
//! - `RouteNetwork::new`: under the same conditions, a network of just these rows (`IsNetworkOf`). It holds no search,
//!   so it serves any number of questions while the rows are the same.
//! - `RouteNetwork::least`: the same answer over the rows of the network, for walks that use no closed row (`found`,
//!   `none`). The closed rows are told by an entry for each row, in order (`IsPrepared`).
//!
//! One search from the start gives the costs, in rounds over the places whose cost was lowered. The route is traced
//! from the start over arcs along which costs rise just by the metric. At each place it takes the least link that leads
//! on.
//!
//! Tested: with route_pair, in node_tests.
#![tactic(auto)]

ghost use Rattle.std.specs.{Prelude.{IfErr, IfOk}, List.Contains};
ghost use Rattle.ason_base.specs.Walks.{ArePotentials, Certify, HaveDistinctLinks, HaveFewEnds, HaveMetrics, IsLeast, IsWalk};
ghost use Rattle.route_least.specs.Answers.{IsRefusal};

pub mod answers;
mod closed;
mod costs;
mod leading;
pub mod lists;
pub mod network;
mod order;
mod places;
mod potentials;
mod trace;

pub use answers::{Found, RouteFault};
use ason_base::ids::NodeId;
use ason_base::network::TeRow;
use closed::rows_of;
pub use lists::{Banned, LinkIds, NodeIds, Potentials};
pub use network::RouteNetwork;
use std::alloc::Global;

/// The walk of least cost from the one node to the other that uses no banned link and visits no banned node after its start, and
/// among those of that cost the one with the least list of links. Metrics are 1 to 65,535, at most 64 nodes are ends of the rows,
/// and no link is in two rows. From a node to itself it is the walk without a step.
pub fn least(
    alloc: Global,
    rows: &[TeRow],
    from: NodeId,
    to: NodeId,
    banned: &Banned,
) -> Result<Found, RouteFault>
    requires ends { HaveFewEnds rows.now }
    requires metrics { HaveMetrics rows.now }
    requires links { HaveDistinctLinks rows.now }
    ensures route { IfOk result
        (λ found. IsLeast (IsWalk rows.now (Contains banned.now.links)
        (Contains banned.now.nodes) from to) found.route found.cost) }
    ensures potential { IfOk result
        (λ found. ArePotentials
        (IsWalk rows.now (Contains banned.now.links)
        (Contains banned.now.nodes) from) found.potential) }
    ensures certificate { IfOk result
        (λ found. Certify rows.now (Contains banned.now.links)
        (Contains banned.now.nodes) from found.potential ×
        Contains found.potential (to, found.cost)) }
    ensures none { IfErr result
        (λ fault. IsRefusal rows.now (Contains banned.now.links)
        (Contains banned.now.nodes) from to fault) }
{
    let network = RouteNetwork::new(alloc, rows)?;
    let closed = rows_of(alloc, rows, banned.links.items())?;
    network.least(alloc, from, to, &closed, banned.nodes.items())
}

//! The neighbours of a node.

ghost use Rattle.std.specs.Prelude.{◌≡◌, IfOk, filter, map, nat_lt};
ghost use Rattle.ason_base.specs.{InOrder.in_order, Network.{other_end, touches}};
ghost use Rattle.mesh_rules.specs.LocalNodes.{local_node};
ghost use Rattle.control_channels.specs.{Adjacencies.{neighbours, new_adjacency}, ReadyControllers.IsKeptAfter};

use crate::adjacencies::Adjacency;
use ason_base::routes::other_end;
use ason_base::{LinkSpec, NodeId, OutOfMemory, Topology};
use hop_reliable::Hop;
use std::alloc::Global;

/// Whether the node is an end of the link.
pub fn touches(n: NodeId, link: &LinkSpec) -> bool
    ensures { result ≡ touches n link.now }
{
    link.low == n || link.high == n
}

/// The other ends of the node's links.
pub fn other_ends(alloc: Global, links: &[LinkSpec], n: NodeId) -> Result<Vec<NodeId>, OutOfMemory>
    ensures { IfOk result (λ v. v.items ≡ map (λ l. other_end l n) (filter (touches n) links.now)) }
{
    let mut ends = Vec::new(alloc);
    for link in links {
        if touches(n, link) {
            ends.push(other_end(link, n))?;
        }
    }
    Ok(ends)
}

fn numbers_of(alloc: Global, nodes: &[NodeId]) -> Result<Vec<u32>, OutOfMemory>
    ensures { IfOk result (λ v. v.items ≡ map (λ n. n.0) nodes.now) }
{
    let numbers = nodes.iter().map(|n| n.0).collect(alloc)?;
    Ok(numbers)
}

// The nodes that these links lead to, in order, each once.
fn neighbours(alloc: Global, links: &[LinkSpec], n: NodeId) -> Result<Vec<u32>, OutOfMemory>
    ensures { IfOk result
        (λ v. v.items ≡ in_order nat_lt
        (map (λ l. (other_end l n).0) (filter (touches n) links.now))) }
{
    let ends = other_ends(alloc, links, n)?;
    let mut numbers = numbers_of(alloc, &ends)?;
    numbers.sort_unstable();
    numbers.dedup();
    Ok(numbers)
}

/// A hop to each neighbour, over which nothing was sent.
pub fn adjacencies(alloc: Global, t: &Topology, n: NodeId) -> Result<Vec<Adjacency>, OutOfMemory>
    ensures new { IfOk result (λ v. v.items ≡ map new_adjacency (neighbours (local_node t.now n))) }
    ensures kept { IfOk result (λ v. IsKeptAfter (local_node t.now n) v.items 0) }
{
    let numbers = neighbours(alloc, t.links(), n)?;
    begun(alloc, &numbers)
}

fn begun(alloc: Global, numbers: &[u32]) -> Result<Vec<Adjacency>, OutOfMemory>
    ensures { IfOk result (λ v. v.items ≡ map new_adjacency numbers.now) }
{
    let mut all = Vec::with_capacity(alloc, numbers.len())?;
    for number in numbers {
        let peer = NodeId(*number);
        let hop = Hop::new(alloc);
        all.push(Adjacency { peer, hop })?;
    }
    Ok(all)
}

//! Places in order of their nodes.

ghost use Rattle.std.specs.Prelude.{IfOk, length};
ghost use Rattle.route_least.specs.Network.{AreNodesInOrder, AreNumbered, AreOnce};

use crate::places::Place;
use ason_base::ids::{NodeId, OutOfMemory};
use std::alloc::Global;

/// A node and its place.
#[derive(Clone, Copy, PartialEq, Eq, PartialOrd, Ord, Drop)]
pub(crate) struct NodePlace {
    pub(crate) node: NodeId,
    pub(crate) place: usize,
}

/// The node of each place with the place, rising by node.
pub(crate) fn order_of(alloc: Global, places: &[Place]) -> Result<Vec<NodePlace>, OutOfMemory>
    requires { AreOnce places.now }
    ensures { IfOk result (λ order. AreNodesInOrder places.now order.items) }
{
    let mut order = entries_of(alloc, places)?;
    order.sort_unstable();
    Ok(order)
}

// The same in order of place.
fn entries_of(alloc: Global, places: &[Place]) -> Result<Vec<NodePlace>, OutOfMemory>
    ensures { IfOk result (λ entries. AreNumbered places.now (length places.now) entries.items) }
{
    let mut entries = Vec::with_capacity(alloc, places.len())?;
    for place in 0..places.len() {
        entries.push(NodePlace {
            node: places[place].node,
            place,
        })?;
    }
    Ok(entries)
}

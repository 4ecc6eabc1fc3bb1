//! Whether anything waits for a tick.

ghost use Rattle.std.specs.{Prelude.{◌≡◌, ◌==◌, IsTrue}, List.list_all};
ghost use Rattle.mesh_rules.specs.Changes.{nothing};
ghost use Rattle.mesh_nodes.specs.Nodes.{answer_to};
ghost use Rattle.mesh_nodes.specs.declared.inputs.Input.TheVariants as inputs;
ghost use Rattle.controller.specs.Waiting.{has_acked, has_all};

use control_channels::Adjacency;
use flood::{Flood, FloodNeighbour};
use node_core::Node;

// Whether every message is acknowledged.
fn are_acked(adjacencies: &[Adjacency]) -> bool
    ensures { result ≡ list_all has_acked adjacencies.now }
{
    adjacencies
        .iter()
        .all(|adjacency| adjacency.hop.pending() == 0)
}

// Whether every row is acknowledged.
fn have_all(neighbours: &[FloodNeighbour]) -> bool
    ensures { result ≡ list_all has_all neighbours.now }
{
    neighbours.iter().all(|neighbour| neighbour.has_all())
}

/// Whether nothing waits for a tick: every message and every row is acknowledged, and the node counts no ticks.
pub(crate) fn is_at_rest(node: &Node, adjacencies: &[Adjacency], flood: &Flood) -> bool
    ensures node { IsTrue result → answer_to node.now inputs.Tick ≡ nothing }
    ensures hops { IsTrue result → IsTrue (list_all has_acked adjacencies.now) }
    ensures rows { IsTrue result → IsTrue (list_all has_all flood.now.neighbours) }
{
    !node.counts_ticks() && are_acked(adjacencies) && have_all(flood.neighbours())
}

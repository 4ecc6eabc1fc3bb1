//! Potentials from a table of least costs.

ghost use Rattle.std.specs.Prelude.{◌<◌, All, IfOk, length};
ghost use Rattle.route_least.specs.Potentials.{AreListed, AreNodesRising};

use crate::lists::Potentials;
use crate::order::NodePlace;
use ason_base::ids::OutOfMemory;
use std::alloc::Global;

/// The nodes whose place has a cost, each with its cost.
pub(crate) fn potentials_of(
    alloc: Global,
    order: &[NodePlace],
    costs: &[Option<u32>],
) -> Result<Potentials, OutOfMemory>
    requires rising { AreNodesRising order.now }
    requires places { All (λ e. e.place < length costs.now) order.now }
    ensures { IfOk result (λ entries. AreListed order.now costs.now entries) }
{
    let mut potentials = Potentials::with_capacity(alloc, order.len())?;
    for entry in order {
        if let Some(cost) = costs[entry.place] {
            potentials.push((entry.node, cost))?;
        }
    }
    Ok(potentials)
}

//! Least routes, and why there is none.

ghost use Rattle.std.specs.Prelude.{◌≡◌};

use crate::lists::Potentials;
use ason_base::ids::OutOfMemory;
use ason_base::steps::Steps;

/// The least route: its steps, the sum of its metrics, and each node's potential.
#[derive(Drop)]
pub struct Found {
    pub route: Steps,
    pub cost: u32,
    pub potential: Potentials,
}

/// Why there is no least route.
#[derive(Drop)]
pub enum RouteFault {
    /// No walk that is allowed joins the two nodes.
    NoRoute(Potentials),
    OutOfMemory,
}

impl From<OutOfMemory> for RouteFault {
    ghost use Rattle.route_least.specs.declared.answers.RouteFault.{RouteFault};

    ghost from_gives = { λ _ fault. fault ≡ RouteFault.OutOfMemory };

    fn from(_: OutOfMemory) -> RouteFault {
        RouteFault::OutOfMemory
    }
}

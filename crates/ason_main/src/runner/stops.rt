//! Why a run ends before its script does.

ghost use Rattle.std.specs.Prelude.{◌≡◌};
ghost use Rattle.ason_main.specs.{declared.runner.stops.Stop.Stop, Running.stop_of};

use ason_base::{NodeId, OutOfMemory};
use fleet::RoundFault;

#[derive(Clone, Copy, Drop)]
pub enum Stop {
    /// The node has made as many events as it may, and an input is at hand.
    AtLimit(NodeId),
    /// The sink failed.
    Failed,
    OutOfMemory,
}

impl From<OutOfMemory> for Stop {
    ghost from_gives = { λ _ error. error ≡ Stop.OutOfMemory };

    fn from(_: OutOfMemory) -> Stop {
        Stop::OutOfMemory
    }
}

impl From<RoundFault> for Stop {
    ghost from_gives = { λ fault error. error ≡ stop_of fault };

    fn from(fault: RoundFault) -> Stop {
        match fault {
            RoundFault::AtLimit(node) => Stop::AtLimit(node),
            RoundFault::Starved => Stop::OutOfMemory,
        }
    }
}

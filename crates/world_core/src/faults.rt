//! Why an event isn't made.

ghost use Rattle.std.specs.Prelude.{◌≡◌};
ghost use Rattle.world_core.specs.declared.faults.Fault.{Fault};

use ason_base::OutOfMemory;

#[derive(Clone, Copy, Drop)]
pub(crate) enum Fault {
    /// It isn't enabled.
    NotEnabled,
    OutOfMemory,
}

impl From<OutOfMemory> for Fault {
    ghost from_gives = { λ _ error. error ≡ Fault.OutOfMemory };

    fn from(_: OutOfMemory) -> Fault {
        Fault::OutOfMemory
    }
}

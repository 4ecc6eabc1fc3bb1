//! Bytes that spell nothing.

ghost use Rattle.std.specs.Prelude.{◌≡◌, IfOk, false, true};
ghost use Rattle.flood.specs.Frames.{SpellsNothing};

use ason_base::{DecodeError, OutOfMemory};
use flood::read_frame;
use std::alloc::Global;

/// Whether these bytes spell nothing.
pub(crate) fn spells_nothing(alloc: Global, bytes: &[u8]) -> Result<bool, OutOfMemory>
    ensures nothing { IfOk result (λ b. b ≡ true → SpellsNothing bytes.now) }
    ensures something { IfOk result (λ b. b ≡ false → ¬ SpellsNothing bytes.now) }
{
    match read_frame(alloc, bytes) {
        Ok(_) => Ok(false),
        Err(DecodeError::NotMessage) => Ok(true),
        Err(DecodeError::OutOfMemory) => Err(OutOfMemory),
    }
}

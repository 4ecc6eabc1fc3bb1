//! What bytes are written to.

ghost use Rattle.std.specs.{Prelude.{◌≡◌, ◌≤◌, ℕ, [], List, Option, IfOk, IsErr, length}, Io.KnownBytes.WriteAppends};
ghost use Rattle.ason_io.specs.Faults.{Rose};

use crate::source::Failed;

/// What bytes are written to, in order.
pub trait Sink {
    /// The bytes that were written, where they are told.
    ghost written: { Self → Option (List ℕ) };

    /// How often it failed, a count that never falls.
    ghost faults: { Self → ℕ };

    /// Appends the first n bytes of the piece. None comes for an empty piece alone.
    /// A write that fails appends nothing and is counted.
    fn write(&mut self, piece: &[u8]) -> Result<usize, Failed>
        ensures fits { IfOk result (λ n. n ≤ length piece.now) }
        ensures bytes { WriteAppends (written self.old) (written self.new) result piece.now }
        ensures some { IfOk result (λ n. n ≡ 0 → piece.now ≡ []) }
        ensures failed { IsErr result → Rose (faults self.old) (faults self.new) }
        ensures rises { faults self.old ≤ faults self.new };
}

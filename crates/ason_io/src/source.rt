//! What bytes are read from.

ghost use Rattle.std.specs.{Prelude.{◌≡◌, ◌≤◌, ◌<◌, ◌++◌, ℕ, [], List, Option, IfOk, IsErr, OnErr, length, take}, Io.KnownBytes.ReadConsumes};
ghost use Rattle.ason_io.specs.Faults.{Rose};

/// The source or the sink failed.
#[derive(Clone, Copy, Drop)]
pub struct Failed;

/// What bytes are read from, in order and in pieces of any size.
pub trait Source {
    /// The bytes still to come, where they are told.
    ghost left: { Self → Option (List ℕ) };

    /// How often it failed, a count that never falls.
    ghost faults: { Self → ℕ };

    /// These bytes and no others were handed out from the first moment to the second.
    ghost handed: { Self → List ℕ → Self → Type 0 };

    /// It said that no byte is left.
    ghost ended: { Self → Type 0 };

    /// Hands out the next n bytes, at the front of the buffer. None into a buffer that isn't empty means the end.
    /// A read that fails hands out nothing and is counted.
    fn read(&mut self, buf: &mut [u8]) -> Result<usize, Failed>
        ensures fits { IfOk result (λ n. n ≤ length buf.old) }
        ensures bytes { ReadConsumes (left self.old) (left self.new) result buf.new }
        ensures hands { IfOk result (λ n. handed self.old (take n buf.new) self.new) }
        ensures end { IfOk result (λ n. n ≡ 0 → 0 < length buf.old → ended self.new) }
        ensures kept { OnErr result (handed self.old [] self.new) }
        ensures failed { IsErr result → Rose (faults self.old) (faults self.new) }
        ensures rises { faults self.old ≤ faults self.new };

    /// At one moment nothing is handed out.
    ghost rests: { (s : Self) → handed s [] s };

    /// What was handed out one after the other was handed out in that order.
    ghost goes_on: { (s t u : Self) (xs ys : List ℕ) → handed s xs t → handed t ys u → handed s (xs ++ ys) u };
}

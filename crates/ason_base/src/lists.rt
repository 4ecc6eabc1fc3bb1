//! Lists of plain numbers.

ghost use Rattle.std.specs.{Prelude.{◌≡◌, ◌↔◌, ◌<◌, ℕ, nat_lt, [], ◌∷◌, ◌++◌, All, Contains, IfOk, OnErr, OnOk}, List.Sorted.IsStrictlyIncreasing};
ghost use Rattle.ason_base.specs.InOrder.{in_order};

use crate::copies::Copied;
use crate::ids::OutOfMemory;
use crate::items::Items;
use std::alloc::Global;
use std::marker::Model;

/// A list of bytes.
pub type Bytes = Items<u8>;

/// A list of numbers.
pub type Numbers = Items<u32>;

/// A list of SRLG numbers, rising (RFC 4203, section 1.3).
pub struct Srlgs {
    numbers: Vec<u32>,
}

impl Model for Srlgs {
    ghost use Rattle.std.specs.Prelude.{List, ℕ};
    ghost use Rattle.std.specs.List.Sorted.{IsStrictlyIncreasing};

    ghost Value = { List ℕ };

    ghost view = { λ s. s.numbers.items };

    ghost invariant = { λ s. IsStrictlyIncreasing s.numbers.items };
}

impl Srlgs {
    /// No SRLG.
    pub fn new(alloc: Global) -> Srlgs
        ensures { result ≡ [] }
    {
        Srlgs {
            numbers: Vec::new(alloc),
        }
    }

    /// The SRLGs of these numbers, each once.
    pub fn of(alloc: Global, numbers: &[u32]) -> Result<Srlgs, OutOfMemory>
        ensures exact { IfOk result (λ s. s ≡ in_order nat_lt numbers.now) }
        ensures rising { IfOk result IsStrictlyIncreasing }
        ensures same { IfOk result (λ s. (n : ℕ) → Contains s n ↔ Contains numbers.now n) }
    {
        let mut rising = Vec::from_slice(alloc, numbers)?;
        rising.sort_unstable();
        rising.dedup();
        Ok(Srlgs { numbers: rising })
    }

    /// Adds an SRLG above all that are there.
    pub fn push(&mut self, item: u32) -> Result<(), OutOfMemory>
        requires { All (λ s. s < item) self.old }
        ensures ok { OnOk result (self.new ≡ self.old ++ item ∷ []) }
        ensures err { OnErr result (self.new ≡ self.old) }
    {
        self.numbers.push(item)?;
        Ok(())
    }

    pub fn items(&self) -> &[u32]
        ensures { result.now ≡ self.now }
    {
        &self.numbers
    }

    /// Law: the numbers rise.
    pub fn rises(&self)
        ensures { IsStrictlyIncreasing self.now }
    {
        let _numbers = &self.numbers;
    }
}

impl Copied for Srlgs {
    fn copy(&self, alloc: Global) -> Result<Srlgs, OutOfMemory> {
        let numbers = Vec::from_slice(alloc, &self.numbers)?;
        Ok(Srlgs { numbers })
    }
}

impl Drop for Srlgs {
    fn drop(self) {
        let Srlgs { numbers: _ } = self;
    }
}

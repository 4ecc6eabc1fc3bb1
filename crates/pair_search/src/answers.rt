//! The best pair of routes, and why there is none.

ghost use Rattle.std.specs.Prelude.{◌≡◌};

use crate::cert::Cert;
use ason_base::{OutOfMemory, Steps};

/// The best pair, the sum of its costs, and what shows that none is better.
pub struct Best {
    pub primary: Steps,
    pub backup: Steps,
    pub total: u32,
    pub cert: Cert,
}

impl Drop for Best {
    fn drop(self) {
        let Best {
            primary: _,
            backup: _,
            total: _,
            cert: _,
        } = self;
    }
}

/// Why there is no best pair.
#[derive(Drop)]
pub enum BestFault {
    /// There are more than 24 rows, or more than 16 nodes are their ends.
    TooLarge,
    /// There is no pair, and what shows it.
    NoPair(Cert),
    OutOfMemory,
}

impl From<OutOfMemory> for BestFault {
    ghost use Rattle.pair_search.specs.declared.answers.BestFault.{BestFault};

    ghost from_gives = { λ _ fault. fault ≡ BestFault.OutOfMemory };

    fn from(_: OutOfMemory) -> BestFault {
        BestFault::OutOfMemory
    }
}

//! What a publisher and its viewers share: the tables that were published.

ghost use Rattle.std.specs.Prelude.{◌≡◌, ◌∷◌, ◌++◌, [], length};
ghost use Rattle.mgmt_view.specs.Tables.{tables_of};

use crate::node_table::NodeTable;
use crate::past::Past;
use ason_base::Copied;
use left_right::Absorb;
use std::alloc::{AllocError, Global};

/// The published tables, and how many they are.
#[derive(Drop)]
pub struct Shelf {
    pub past: Past,
    pub count: u64,
    alloc: Global,
    ghost counted: { count ≡ length (tables_of past) },
}

impl Shelf {
    pub fn new(alloc: Global, first: NodeTable) -> Shelf
        ensures { tables_of result.past ≡ first ∷ [] }
    {
        Shelf {
            past: Past::First(first),
            count: 1,
            alloc,
        }
    }
}

impl Absorb<NodeTable> for Shelf {
    // A clause reads an array as a list, of any length.
    type State = [NodeTable; 0];

    ghost state = { λ s. tables_of s.past };

    ghost applied = { λ xs x. xs ++ x ∷ [] };

    fn absorb_first(&mut self, operation: &NodeTable, _other: &Shelf) -> Result<(), AllocError> {
        if self.count == u64::MAX {
            return Err(AllocError);
        }
        let Ok(table) = operation.copy(self.alloc) else {
            return Err(AllocError);
        };
        self.past = self.past.then(table);
        self.count += 1;
        Ok(())
    }
}

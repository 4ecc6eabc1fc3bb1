//! What a station publishes of its node.

use ason_base::{Copied, LegRows, OutOfMemory, copied};
use std::alloc::Global;

/// The legs of a node as the table shows them, after the first so many entries of its log.
pub struct NodeTable {
    pub entries: u64,
    pub legs: LegRows,
}

impl Copied for NodeTable {
    fn copy(&self, alloc: Global) -> Result<NodeTable, OutOfMemory> {
        copied!(self, alloc; NodeTable { entries; legs })
    }
}

impl Drop for NodeTable {
    fn drop(self) {
        let NodeTable {
            entries: _,
            legs: _,
        } = self;
    }
}

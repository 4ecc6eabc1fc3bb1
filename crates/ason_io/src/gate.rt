//! Where a turn may be held.

use ason_base::NodeId;

/// What is called before each entry that a turn makes in a log, with the node and the entry's number in its log, from 1.
pub trait Gate: Sync {
    fn before(&self, node: NodeId, entry: u64);
}

/// The gate that is always open.
#[derive(Clone, Copy, Drop)]
pub struct NoGate;

impl Gate for NoGate {
    fn before(&self, _node: NodeId, _entry: u64) {}
}

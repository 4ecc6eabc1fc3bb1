//! What a node does in one of its events.

use ason_base::{Bytes, NodeId};

#[derive(Drop)]
pub(crate) enum Act {
    /// A frame comes from a node.
    Take { from: NodeId, bytes: Bytes },
    /// The node ticks.
    Tick,
    /// The first item of the desk is handled.
    Handle,
}

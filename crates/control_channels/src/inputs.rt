//! What a controller is given, and what waits in it.

use ason_base::{Bytes, DeskItem, NodeId};

/// One input of a controller.
#[derive(Drop)]
pub enum CoreInput {
    /// A frame that came from a neighbour.
    Frame { from: NodeId, bytes: Bytes },
    /// A tick of 500 ms.
    Tick,
    /// An item of the node's desk.
    Desk(DeskItem),
}

/// How much a controller sent that isn't acknowledged: messages of its hops, and rows that it floods.
#[derive(Clone, Copy, Drop)]
pub struct Pending {
    pub hop: usize,
    pub flood: usize,
}

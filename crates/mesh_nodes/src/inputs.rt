//! What a node is given.

use ason_base::{DeskItem, Msg, NodeId, TeRow};

/// One input of a node.
pub enum Input {
    /// A message from a neighbour.
    Message { from: NodeId, msg: Msg },
    /// An item of the node's desk.
    Desk(DeskItem),
    Tick,
    /// The row of a link that a neighbour knows.
    Learn(TeRow),
}

impl Drop for Input {
    fn drop(self) {
        match self {
            Input::Message { from: _, msg: _ } | Input::Desk(_) | Input::Tick | Input::Learn(_) =>
                {}
        }
    }
}

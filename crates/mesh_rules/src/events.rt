//! What may happen next in the mesh.

use ason_base::{Command, LinkId, NodeId};

/// One event of the mesh.
pub enum MeshEvent {
    /// The first message on the way from `from` to `to` is taken.
    Take { to: NodeId, from: NodeId },
    /// The first item of the node's desk is handled.
    Desk { node: NodeId },
    Tick { node: NodeId },
    /// The node learns the row of a link that a neighbour knows.
    Learn { node: NodeId, link: LinkId },
    /// A command is given.
    Post { command: Command },
}

impl Drop for MeshEvent {
    fn drop(self) {
        match self {
            MeshEvent::Take { to: _, from: _ }
            | MeshEvent::Desk { node: _ }
            | MeshEvent::Tick { node: _ }
            | MeshEvent::Learn { node: _, link: _ }
            | MeshEvent::Post { command: _ } => {}
        }
    }
}

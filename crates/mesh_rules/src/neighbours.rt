//! The neighbours of a leg.

use ason_base::{Fibre, NodeId};

/// A neighbour, and the fibre by which an LSP comes from it or goes to it.
#[derive(Clone, Copy, Drop)]
pub struct Neighbour {
    pub node: NodeId,
    pub fibre: Fibre,
}

//! Where a message comes from.

use ason_base::{Label, LinkId, Lsp, NodeId};

/// The LSP and egress that a message names, and the neighbour and link that it came by.
#[derive(Clone, Copy, Drop)]
pub struct Arrival {
    pub lsp: Lsp,
    pub egress: NodeId,
    pub from: NodeId,
    pub link: LinkId,
}

/// The label that a Resv gives, of which LSP, and from where it came.
#[derive(Clone, Copy, Drop)]
pub struct GivenLabel {
    pub arrival: Arrival,
    pub label: Label,
}

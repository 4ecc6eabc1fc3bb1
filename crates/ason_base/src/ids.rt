//! Numbers of nodes, links, calls and LSPs, and want of memory.

use std::alloc::{AllocError, AllocFailed};

/// Memory was refused.
#[derive(Clone, Copy, Debug, Drop)]
pub struct OutOfMemory;

impl From<AllocError> for OutOfMemory {
    fn from(_: AllocError) -> OutOfMemory {
        OutOfMemory
    }
}

impl<T: Drop> From<AllocFailed<T>> for OutOfMemory {
    fn from(_: AllocFailed<T>) -> OutOfMemory {
        OutOfMemory
    }
}

/// A node's number (the router id of RFC 3477).
#[derive(Clone, Copy, Debug, PartialEq, Eq, PartialOrd, Ord, Hash, Drop)]
pub struct NodeId(pub u32);

/// A link's number, the same at both ends (the interface id of RFC 3477).
#[derive(Clone, Copy, PartialEq, Eq, PartialOrd, Ord, Drop)]
pub struct LinkId(pub u32);

/// A call's number at its ingress (ITU-T G.8080).
#[derive(Clone, Copy, PartialEq, Eq, PartialOrd, Ord, Drop)]
pub struct CallNo(pub u16);

/// One direction of a link. Forward goes from the low end to the high one.
#[derive(Clone, Copy, PartialEq, Eq, Drop)]
pub struct Fibre {
    pub link: LinkId,
    pub forward: bool,
}

/// A label switched path (RFC 3209): where it begins, the tunnel that it serves and its own number there.
#[derive(Clone, Copy, PartialEq, Eq, PartialOrd, Ord, Hash, Drop)]
pub struct Lsp {
    pub ingress: NodeId,
    pub tunnel: u16,
    pub lsp: u16,
}

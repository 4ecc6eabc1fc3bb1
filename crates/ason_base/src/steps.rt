//! Routes: strict lists of unnumbered hops (RFC 3477, section 4).

use crate::ids::{LinkId, NodeId};
use crate::items::Items;

/// One step of a route: the node that sends, and the link that it sends over.
#[derive(Clone, Copy, Drop)]
pub struct Step {
    pub node: NodeId,
    pub link: LinkId,
}

/// A route: a list of steps.
pub type Steps = Items<Step>;

//! What a call of floods sends.

use crate::messages::FloodMsg;
use ason_base::{Items, NodeId, TeRow};

/// A list of flood messages, each with the neighbour that it goes to.
pub type FloodSends = Items<(NodeId, FloodMsg)>;

/// What came of a flood message: the row, if it was new, and what is to be sent.
#[derive(Drop)]
pub struct FloodOut {
    pub learnt: Option<TeRow>,
    pub sends: FloodSends,
}

//! A plan as it is run and printed.

use crate::lines::Lines;
use crate::names::Names;
use ason_base::Topology;

/// A plan: the network, the names of its nodes and calls, each in order of number, and the script's lines.
pub struct Plan {
    pub topology: Topology,
    pub node_names: Names,
    pub call_names: Names,
    pub lines: Lines,
}

impl Drop for Plan {
    fn drop(self) {
        let Plan {
            topology: _,
            node_names: _,
            call_names: _,
            lines: _,
        } = self;
    }
}

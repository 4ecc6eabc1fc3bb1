//! The network of the tests: three nodes in a row that convert. Links 1 and 3, of one label each, join the first two of them,
//! and link 2, of two labels, the others.

use ason_base::{LinkId, LinkSpec, NodeId, NodeSpec, Numbers, Topology};
use std::alloc::Global;
use std::test::Fail;

pub(crate) const A: NodeId = NodeId(1);

pub(crate) const B: NodeId = NodeId(2);

pub(crate) const C: NodeId = NodeId(3);

pub(crate) fn row(alloc: Global) -> Result<Topology, Fail> {
    let node = |id: NodeId| NodeSpec { id, convert: true };
    let link = |id: u32, low: NodeId, high: NodeId, labels: u8| LinkSpec {
        id: LinkId(id),
        low,
        high,
        labels,
        metric: 1,
        srlgs: Numbers::new(alloc),
    };
    let nodes = [node(A), node(B), node(C)];
    let links = [link(1, A, B, 1), link(2, B, C, 2), link(3, A, B, 1)];
    Ok(Topology::new(alloc, 0, &nodes, &links)?)
}

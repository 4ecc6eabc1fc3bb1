//! The networks of the tests: two nodes and a link of one label, and nine nodes without a link.

use ason_base::{LinkId, LinkSpec, NodeId, NodeSpec, Numbers, Topology};
use std::alloc::Global;
use std::test::Fail;

pub(crate) const A: NodeId = NodeId(1);

pub(crate) const B: NodeId = NodeId(2);

const LINK: LinkId = LinkId(1);

pub(crate) fn pair(alloc: Global) -> Result<Topology, Fail> {
    let node = |id: NodeId| NodeSpec { id, convert: true };
    let link = LinkSpec {
        id: LINK,
        low: A,
        high: B,
        labels: 1,
        metric: 1,
        srlgs: Numbers::new(alloc),
    };
    Ok(Topology::new(alloc, 0, &[node(A), node(B)], &[link])?)
}

pub(crate) fn nine(alloc: Global) -> Result<Topology, Fail> {
    let node = |id: u32| NodeSpec {
        id: NodeId(id),
        convert: true,
    };
    let nodes = [
        node(1),
        node(2),
        node(3),
        node(4),
        node(5),
        node(6),
        node(7),
        node(8),
        node(9),
    ];
    Ok(Topology::new(alloc, 0, &nodes, &[])?)
}

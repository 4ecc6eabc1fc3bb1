//! A generated network: a ring over all nodes, and a chord from each node of the first half to the one opposite.

ghost use Rattle.std.specs.Prelude.{◌≡◌, ◌<◌, ◌≤◌, ◌+◌, ◌*◌, ◌/◌, IfOk, OnOk};
ghost use Rattle.ason_base.specs.{declared.limits.TheConstants.MOST_NODES, Network.IsTopology};
ghost use Rattle.load_plan.specs.{Draws.{after_draws, next}, Networks.{after_network, drawn_network, network_with, high_of, link_at, links_from, low_of, node_at, nodes_from}};

use crate::draws::Draws;
use ason_base::limits::MOST_LABELS;
use ason_base::{
    LinkId, LinkSpec, NodeId, NodeSpec, Numbers, OutOfMemory, Topology, TopologyFault,
};
use std::alloc::Global;

/// The ticks that a call waits before it is restored.
const WAIT: u32 = 2;

// Nodes

fn node_at(i: u32, draws: &mut Draws) -> NodeSpec
    requires { i < MOST_NODES }
    ensures node { result ≡ node_at i draws.old.state }
    ensures next { draws.new.state ≡ next draws.old.state }
{
    NodeSpec {
        id: NodeId(i + 1),
        convert: draws.draw() % 2 == 1,
    }
}

fn nodes(alloc: Global, n: u32, draws: &mut Draws) -> Result<Vec<NodeSpec>, OutOfMemory>
    requires { n ≤ MOST_NODES }
    ensures nodes { IfOk result (λ v. v.items ≡ nodes_from 0 n draws.old.state) }
    ensures after { OnOk result (draws.new.state ≡ after_draws n draws.old.state) }
{
    let mut nodes = Vec::new(alloc);
    for i in 0..n {
        nodes.push(node_at(i, draws))?;
    }
    Ok(nodes)
}

// Links

fn low_of(n: u32, i: u32) -> u32
    requires n { n ≤ MOST_NODES }
    requires i { i < 96 }
    ensures { result ≡ low_of n i }
{
    if i + 1 < n {
        i + 1
    } else if i + 1 == n {
        1
    } else {
        i - n + 1
    }
}

fn high_of(n: u32, i: u32) -> u32
    requires n { n ≤ MOST_NODES }
    requires i { i < 96 }
    ensures { result ≡ high_of n i }
{
    if i + 1 < n {
        i + 2
    } else if i + 1 == n {
        n
    } else {
        i - n + 1 + n / 2
    }
}

fn link_at(alloc: Global, n: u32, i: u32, draws: &mut Draws) -> Result<LinkSpec, OutOfMemory>
    requires some { 1 ≤ n }
    requires n { n ≤ MOST_NODES }
    requires i { i < 96 }
    ensures link { IfOk result (λ l. l ≡ link_at n i draws.old.state) }
    ensures next { OnOk result (draws.new.state ≡ next (next draws.old.state)) }
{
    let metric = 1 + (draws.draw() % 10) as u32;
    let srlg = 1 + (draws.draw() % n as u64) as u32;
    let mut srlgs = Numbers::new(alloc);
    srlgs.push(srlg)?;
    Ok(LinkSpec {
        id: LinkId(i + 1),
        low: NodeId(low_of(n, i)),
        high: NodeId(high_of(n, i)),
        labels: MOST_LABELS,
        metric,
        srlgs,
    })
}

fn links(alloc: Global, n: u32, draws: &mut Draws) -> Result<Vec<LinkSpec>, OutOfMemory>
    requires some { 1 ≤ n }
    requires n { n ≤ MOST_NODES }
    ensures links { IfOk result (λ v. v.items ≡ links_from n 0 (n + n / 2) draws.old.state) }
    ensures after { OnOk result (draws.new.state ≡ after_draws (2 * (n + n / 2)) draws.old.state) }
{
    let mut links = Vec::new(alloc);
    for i in 0..n + n / 2 {
        links.push(link_at(alloc, n, i, draws)?)?;
    }
    Ok(links)
}

// Networks

// The topology of these nodes and links, which make one.
fn joined(alloc: Global, nodes: &[NodeSpec], links: &[LinkSpec]) -> Result<Topology, OutOfMemory>
    requires { IsTopology (network_with nodes.now links.now) }
    ensures value { IfOk result (λ t. t ≡ network_with nodes.now links.now) }
    ensures valid { IfOk result IsTopology }
{
    match Topology::new(alloc, WAIT, nodes, links) {
        Ok(topology) => Ok(topology),
        Err(TopologyFault::OutOfMemory) => Err(OutOfMemory),
        Err(_) => unreachable!(),
    }
}

/// The network of so many nodes.
pub(crate) fn topology(alloc: Global, n: u32, draws: &mut Draws) -> Result<Topology, OutOfMemory>
    requires least { 4 ≤ n }
    requires most { n ≤ MOST_NODES }
    ensures value { IfOk result (λ t. t ≡ drawn_network n draws.old.state) }
    ensures valid { IfOk result IsTopology }
    ensures after { OnOk result (draws.new.state ≡ after_network n draws.old.state) }
{
    let nodes = nodes(alloc, n, draws)?;
    let links = links(alloc, n, draws)?;
    joined(alloc, &nodes, &links)
}

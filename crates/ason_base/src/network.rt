//! The network: its nodes, its links, and which nodes they join.

ghost use Rattle.std.specs.{Prelude.{◌≡◌, ◌<◌, IfErr, IfNone, IfOk, IfSome, length, false, map}, List.list_any, Option.option_copied};
ghost use Rattle.ason_base.specs.Network.{AreLinks, AreNodes, FaultOf, IsTopology, are_ends, find_link, find_node, is_after, is_channel, is_distinct, is_link, is_link_at, is_node_at, is_node_id, joins, receiver_of, row_of, sender_of};

use crate::copied;
use crate::copies::{Copied, copy_all};
use crate::ids::{Fibre, LinkId, NodeId, OutOfMemory};
use crate::limits::{MOST_LABELS, MOST_LINKS, MOST_METRIC, MOST_NODES, MOST_SRLGS};
use crate::lists::{Numbers, Srlgs};
use std::alloc::Global;
use std::marker::Model;

/// A node. One that doesn't convert keeps an LSP's label.
#[derive(Clone, Copy, Drop)]
pub struct NodeSpec {
    pub id: NodeId,
    pub convert: bool,
}

/// A link between two nodes, of which `low` has the lesser number. Each of its two fibres has `labels` labels.
pub struct LinkSpec {
    pub id: LinkId,
    pub low: NodeId,
    pub high: NodeId,
    pub labels: u8,
    pub metric: u32,
    pub srlgs: Numbers,
}

impl Copied for LinkSpec {
    fn copy(&self, alloc: Global) -> Result<LinkSpec, OutOfMemory> {
        copied!(self, alloc; LinkSpec { id, low, high, labels, metric; srlgs })
    }
}

impl Drop for LinkSpec {
    fn drop(self) {
        let LinkSpec {
            id: _,
            low: _,
            high: _,
            labels: _,
            metric: _,
            srlgs: _,
        } = self;
    }
}

/// A link as routing knows it (RFC 3630, RFC 4203).
pub struct TeRow {
    pub link: LinkId,
    pub low: NodeId,
    pub high: NodeId,
    pub metric: u32,
    pub srlgs: Srlgs,
}

impl TeRow {
    /// The row of a link: its SRLGs rise.
    pub fn of(alloc: Global, link: &LinkSpec) -> Result<TeRow, OutOfMemory>
        ensures { IfOk result (λ r. r ≡ row_of link.now) }
    {
        let srlgs = Srlgs::of(alloc, link.srlgs.items())?;
        Ok(TeRow {
            link: link.id,
            low: link.low,
            high: link.high,
            metric: link.metric,
            srlgs,
        })
    }
}

/// The rows of these links.
pub fn rows_of(alloc: Global, links: &[LinkSpec]) -> Result<Vec<TeRow>, OutOfMemory>
    ensures { IfOk result (λ rows. rows.items ≡ map row_of links.now) }
{
    let mut rows = Vec::with_capacity(alloc, links.len())?;
    for link in links {
        let row = TeRow::of(alloc, link)?;
        rows.push(row)?;
    }
    Ok(rows)
}

impl Copied for TeRow {
    fn copy(&self, alloc: Global) -> Result<TeRow, OutOfMemory> {
        copied!(self, alloc; TeRow { link, low, high, metric; srlgs })
    }
}

impl Drop for TeRow {
    fn drop(self) {
        let TeRow {
            link: _,
            low: _,
            high: _,
            metric: _,
            srlgs: _,
        } = self;
    }
}

/// Why nodes and links make no topology. Places count from 0.
#[derive(Clone, Copy, Debug, Drop)]
pub enum TopologyFault {
    /// There isn't 1 to 64 nodes, or there are more than 256 links.
    Count,
    /// This node's number is 0 or not above the one before.
    Node(usize),
    /// This link's number is 0 or not above the one before; `low` isn't below `high`; an end is no node; the labels aren't
    /// 1 to 80; the metric isn't 1 to 65,535; it has more than 16 SRLGs, or one twice.
    Link(usize),
    OutOfMemory,
}

/// The nodes and links of a network, each in order of number, and the ticks that a call waits before it is restored.
pub struct Topology {
    wait: u32,
    nodes: Vec<NodeSpec>,
    links: Vec<LinkSpec>,
}

impl Model for Topology {
    ghost use Rattle.ason_base.specs.Network.{IsTopology, Network};

    ghost Value = { Network };

    ghost view = { λ t. record { wait = t.wait; nodes = t.nodes.items; links = t.links.items } };

    ghost invariant = { λ t. IsTopology (record { wait = t.wait; nodes = t.nodes.items; links = t.links.items }) };
}

impl Topology {
    /// The topology of these nodes and links, or their first fault: the count, then the nodes, then the links.
    pub fn new(
        alloc: Global,
        wait: u32,
        nodes: &[NodeSpec],
        links: &[LinkSpec],
    ) -> Result<Topology, TopologyFault>
        ensures value { IfOk result
            (λ t. t ≡ record { wait = wait; nodes = nodes.now; links = links.now }) }
        ensures valid { IfOk result IsTopology }
        ensures fault { IfErr result (FaultOf nodes.now links.now) }
    {
        if nodes.is_empty() || nodes.len() > MOST_NODES || links.len() > MOST_LINKS {
            return Err(TopologyFault::Count);
        }
        if let Some(i) = bad_node(nodes) {
            return Err(TopologyFault::Node(i));
        }
        if let Some(i) = bad_link(nodes, links) {
            return Err(TopologyFault::Link(i));
        }
        let nodes = Vec::from_slice(alloc, nodes);
        let links = copy_all(alloc, links);
        match (nodes, links) {
            (Ok(nodes), Ok(links)) => Ok(Topology { wait, nodes, links }),
            _ => Err(TopologyFault::OutOfMemory),
        }
    }

    /// The ticks that a call waits before it is restored; 0: by command alone.
    pub fn wait(&self) -> u32
        ensures { result ≡ self.now.wait }
    {
        self.wait
    }

    /// The nodes, in order of number.
    pub fn nodes(&self) -> &[NodeSpec]
        ensures list { result.now ≡ self.now.nodes }
        ensures valid { IsTopology self.now }
    {
        &self.nodes
    }

    /// The links, in order of number.
    pub fn links(&self) -> &[LinkSpec]
        ensures list { result.now ≡ self.now.links }
        ensures valid { IsTopology self.now }
    {
        &self.links
    }

    /// The node of this number: none exactly where there is none.
    pub fn node(&self, id: NodeId) -> Option<&NodeSpec>
        ensures { option_copied result ≡ find_node self.now id }
    {
        self.nodes.iter().find(|node| node.id == id)
    }

    /// The link of this number: none exactly where there is none.
    pub fn link(&self, id: LinkId) -> Option<&LinkSpec>
        ensures { option_copied result ≡ find_link self.now id }
    {
        match self.links.binary_search_by_key(&id.0, |link| link.id.0) {
            Ok(place) => Some(&self.links[place]),
            Err(_) => None,
        }
    }

    /// The node that sends on this fibre: none exactly where there is no such link.
    pub fn sender(&self, f: Fibre) -> Option<NodeId>
        ensures { result ≡ sender_of self.now f }
    {
        match self.link(f.link) {
            None => None,
            Some(link) => Some(if f.forward { link.low } else { link.high }),
        }
    }

    /// The node that receives on this fibre, its owner: none exactly where there is no such link.
    pub fn receiver(&self, f: Fibre) -> Option<NodeId>
        ensures { result ≡ receiver_of self.now f }
    {
        match self.link(f.link) {
            None => None,
            Some(link) => Some(if f.forward { link.high } else { link.low }),
        }
    }

    /// Whether the link is there and joins these two nodes.
    pub fn joins(&self, link: LinkId, a: NodeId, b: NodeId) -> bool
        ensures { result ≡ joins self.now link a b }
    {
        match self.link(link) {
            None => false,
            Some(link) => are_ends(link, a, b),
        }
    }

    /// Whether a channel leads from one node to the other: whether they are two nodes that a link joins.
    pub fn is_channel(&self, from: NodeId, to: NodeId) -> bool
        ensures { result ≡ is_channel self.now from to }
    {
        is_node_id(&self.nodes, from)
            && is_node_id(&self.nodes, to)
            && from != to
            && are_joined(&self.links, from, to)
    }
}

impl Copied for Topology {
    fn copy(&self, alloc: Global) -> Result<Topology, OutOfMemory> {
        let nodes = Vec::from_slice(alloc, &self.nodes)?;
        let links = copy_all(alloc, &self.links)?;
        Ok(Topology {
            wait: self.wait,
            nodes,
            links,
        })
    }
}

impl Drop for Topology {
    fn drop(self) {
        let Topology {
            wait: _,
            nodes: _,
            links: _,
        } = self;
    }
}

// Whether the two are the ends of the link, whichever of them is the low one.
fn are_ends(link: &LinkSpec, a: NodeId, b: NodeId) -> bool
    ensures { result ≡ are_ends link.now.low link.now.high a b }
{
    (link.low == a && link.high == b) || (link.low == b && link.high == a)
}

// Whether one of the links joins the two.
fn are_joined(links: &[LinkSpec], a: NodeId, b: NodeId) -> bool
    ensures { result ≡ list_any (λ l. are_ends l.low l.high a b) links.now }
{
    links.iter().any(|link| are_ends(link, a, b))
}

fn is_node_at(nodes: &[NodeSpec], i: usize) -> bool
    requires { i < length nodes.now }
    ensures { result ≡ is_node_at nodes.now i }
{
    let before = if i == 0 { 0 } else { nodes[i - 1].id.0 };
    before < nodes[i].id.0
}

// The first node whose number isn't above the one before.
fn bad_node(nodes: &[NodeSpec]) -> Option<usize>
    ensures none { IfNone result (AreNodes nodes.now (length nodes.now)) }
    ensures first { IfSome result (λ i. AreNodes nodes.now i × (i < length nodes.now) ×
        (is_node_at nodes.now i ≡ false)) }
{
    for i in 0..nodes.len() {
        if !is_node_at(nodes, i) {
            return Some(i);
        }
    }
    None
}

fn is_node_id(nodes: &[NodeSpec], id: NodeId) -> bool
    ensures { result ≡ is_node_id nodes.now id }
{
    nodes.iter().any(|node| node.id == id)
}

fn is_distinct(numbers: &[u32]) -> bool
    ensures { result ≡ is_distinct numbers.now }
{
    match numbers {
        [] => true,
        [first, others @ ..] => !others.contains(first) && is_distinct(others),
    }
}

fn is_link(nodes: &[NodeSpec], link: &LinkSpec) -> bool
    ensures { result ≡ is_link nodes.now link.now }
{
    let srlgs = link.srlgs.items();
    link.low.0 < link.high.0
        && (is_node_id(nodes, link.low) && is_node_id(nodes, link.high))
        && (1 <= link.labels && link.labels <= MOST_LABELS)
        && (1 <= link.metric && link.metric <= MOST_METRIC)
        && (srlgs.len() <= MOST_SRLGS && is_distinct(srlgs))
}

fn is_after(links: &[LinkSpec], i: usize) -> bool
    requires { i < length links.now }
    ensures { result ≡ is_after links.now i }
{
    let before = if i == 0 { 0 } else { links[i - 1].id.0 };
    before < links[i].id.0
}

fn is_link_at(nodes: &[NodeSpec], links: &[LinkSpec], i: usize) -> bool
    requires { i < length links.now }
    ensures { result ≡ is_link_at nodes.now links.now i }
{
    is_after(links, i)
        && match links.get(i) {
            None => false,
            Some(link) => is_link(nodes, link),
        }
}

// The first link that can't stand at its place.
fn bad_link(nodes: &[NodeSpec], links: &[LinkSpec]) -> Option<usize>
    ensures none { IfNone result (AreLinks nodes.now links.now (length links.now)) }
    ensures first { IfSome result (λ i. AreLinks nodes.now links.now i × (i < length links.now) ×
        (is_link_at nodes.now links.now i ≡ false)) }
{
    for i in 0..links.len() {
        if !is_link_at(nodes, links, i) {
            return Some(i);
        }
    }
    None
}

//! The tables of one node: its links, what it knows of others', and its legs.

ghost use Rattle.std.specs.{Prelude.{◌≡◌, ◌≤◌, ◌<◌, ◌-◌, ◌++◌, ◌∷◌, [], IfOk, None, OnOk, Some, filter, length, slice_get, take}, Option.option_copied};
ghost use Rattle.mesh_rules.specs.{declared.limits.TheConstants.MOST_LEGS, Changes.down_after, KnownRows.has_row, Legs.find_leg};
ghost use Rattle.ason_base.specs.{Lsps.has_fibre, Network.{find_node, touches}};
ghost use Rattle.leg_table.specs.LegTables.{AreLegsRising, find_own, new_table, node_or_none};

use crate::leg_map::LegMap;
use ason_base::network::rows_of;
use ason_base::routes::touches;
use ason_base::{
    Copied, Fibre, Fibres, Leg, LinkId, LinkSpec, Lsp, NodeId, NodeSpec, OutOfMemory, TeRow,
    Topology,
};
use std::alloc::Global;
use std::marker::Model;

/// A node's own links, the rows that it knows, the fibres that it knows to be down, and its legs.
pub struct NodeTables {
    node: NodeSpec,
    wait: u32,
    own: Vec<LinkSpec>,
    pub rows: Vec<TeRow>,
    down: Fibres,
    pub legs: LegMap,
}

impl Model for NodeTables {
    ghost use Rattle.mesh_rules.specs.declared.limits.TheConstants.{MOST_LEGS};
    ghost use Rattle.std.specs.Prelude.{◌≤◌, length};
    ghost use Rattle.leg_table.specs.LegTables.{LegTable};

    ghost Value = { LegTable };

    ghost view = { λ t. record {
      node = t.node;
      wait = t.wait;
      own = t.own.items;
      rows = t.rows.items;
      down = t.down;
      legs = t.legs.legs;
    } };

    ghost invariant = { λ t. length t.legs.legs ≤ MOST_LEGS };
}

impl NodeTables {
    /// The tables of node `id` of this topology: it knows its own links, and has no leg. A number that no node has gives a node
    /// without links.
    pub fn new(alloc: Global, t: &Topology, id: NodeId) -> Result<NodeTables, OutOfMemory>
        ensures { IfOk result (λ s. s ≡ new_table t.now id) }
    {
        let node = node_of(t, id);
        let own = copy_own(alloc, t.links(), id)?;
        let rows = rows_of(alloc, &own)?;
        Ok(NodeTables {
            node,
            wait: t.wait(),
            own,
            rows,
            down: Fibres::new(alloc),
            legs: LegMap::new(alloc),
        })
    }

    /// The leg of this LSP: none exactly where none stands.
    pub fn get(&self, lsp: &Lsp) -> Option<&Leg>
        ensures { option_copied result ≡ find_leg lsp.now self.now.legs }
    {
        self.legs.get(*lsp)
    }

    /// Law: the legs rise by LSP, and there are at most 4,096.
    pub fn rises(&self)
        ensures rising { AreLegsRising self.now.legs }
        ensures few { length self.now.legs ≤ MOST_LEGS }
    {
        self.legs.rises();
    }

    /// The leg at this place, from 0, in order of LSP: none exactly from the number of legs on.
    pub fn leg_at(&self, place: usize) -> Option<&Leg>
        ensures { option_copied result ≡ slice_get self.now.legs place }
    {
        self.legs.leg_at(place)
    }

    /// The number of legs.
    pub fn count(&self) -> usize
        ensures { result ≡ length self.now.legs }
    {
        self.legs.count()
    }

    /// The node.
    pub fn node(&self) -> &NodeSpec
        ensures { result.now ≡ self.now.node }
    {
        &self.node
    }

    /// The ticks that a call waits before it is restored; 0: by command alone.
    pub fn wait(&self) -> u32
        ensures { result ≡ self.now.wait }
    {
        self.wait
    }

    /// The node's own link of this number: none exactly where it has none.
    pub fn own(&self, link: LinkId) -> Option<&LinkSpec>
        ensures { option_copied result ≡ find_own link self.now.own }
    {
        self.own.iter().find(|l| l.id == link)
    }

    /// The rows of the links that the node knows: its own, and then those that it learnt, in that order.
    pub fn rows(&self) -> &[TeRow]
        ensures { result.now ≡ self.now.rows }
    {
        &self.rows
    }

    /// Whether the node knows the link.
    pub fn knows(&self, link: LinkId) -> bool
        ensures { result ≡ has_row self.now.rows link }
    {
        self.rows.iter().any(|row| row.link == link)
    }

    /// Forgets the row that came last.
    pub fn forget(&mut self)
        ensures { self.new ≡ record self.old {
          rows = take (length self.old.rows - 1) self.old.rows;
        } }
    {
        let _ = self.rows.pop();
    }

    /// The fibres that are known to be down, in the order in which they went down.
    pub fn down(&self) -> &Fibres
        ensures { result.now ≡ self.now.down }
    {
        &self.down
    }

    /// Whether the fibre is known to be down.
    pub fn is_down(&self, f: Fibre) -> bool
        ensures { result ≡ has_fibre self.now.down f }
    {
        self.down.has(f)
    }

    /// Takes just these fibres to be down, if there are any to take.
    pub fn know_down(&mut self, down: Option<Fibres>)
        ensures { self.new ≡ record self.old { down = down_after down self.old.down } }
    {
        if let Some(down) = down {
            self.down = down;
        }
    }
}

impl Drop for NodeTables {
    fn drop(self) {
        let NodeTables {
            node: _,
            wait: _,
            own: _,
            rows: _,
            down: _,
            legs: _,
        } = self;
    }
}

fn node_of(t: &Topology, id: NodeId) -> NodeSpec
    ensures { result ≡ node_or_none id (find_node t.now id) }
{
    match t.node(id) {
        None => NodeSpec { id, convert: false },
        Some(node) => *node,
    }
}

// The link, if this node is an end of it, comes after those before it.
fn copy_if_own(
    own: &mut Vec<LinkSpec>,
    alloc: Global,
    link: &LinkSpec,
    n: NodeId,
) -> Result<(), OutOfMemory>
    ensures { OnOk result (own.new.items ≡ own.old.items ++ filter (touches n) (link.now ∷ [])) }
{
    if touches(n, link) {
        let copy = link.copy(alloc)?;
        own.push(copy)?;
    }
    Ok(())
}

// The links that this node is an end of.
fn copy_own(alloc: Global, links: &[LinkSpec], n: NodeId) -> Result<Vec<LinkSpec>, OutOfMemory>
    ensures { IfOk result (λ v. v.items ≡ filter (touches n) links.now) }
{
    let mut own = Vec::new(alloc);
    for link in links {
        copy_if_own(&mut own, alloc, link, n)?;
    }
    Ok(own)
}

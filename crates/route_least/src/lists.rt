//! Lists that routing takes and gives: links, nodes and potentials.

ghost use Rattle.std.specs.Prelude.{◌≡◌, ◌<◌, [], ◌∷◌, ◌++◌, All, IfOk, OnErr, OnOk};

use ason_base::Items;
use ason_base::ids::{LinkId, NodeId, OutOfMemory};
use std::alloc::Global;
use std::marker::Model;

/// A list of links.
pub type LinkIds = Items<LinkId>;

/// A list of nodes.
pub type NodeIds = Items<NodeId>;

/// Nodes with the least cost of a walk that leads there from the start, rising by node. Nodes to which no walk leads aren't there.
pub struct Potentials {
    entries: Vec<(NodeId, u32)>,
}

impl Model for Potentials {
    ghost use Rattle.std.specs.Prelude.{List, ℕ};
    ghost use Rattle.ason_base.specs.declared.ids.NodeId.{NodeId};

    ghost Value = { List (NodeId × ℕ) };

    ghost view = { λ s. s.entries.items };
}

impl Potentials {
    /// No node.
    pub fn new(alloc: Global) -> Potentials
        ensures { result ≡ [] }
    {
        Potentials {
            entries: Vec::new(alloc),
        }
    }

    /// No node, and room for so many.
    pub(crate) fn with_capacity(alloc: Global, capacity: usize) -> Result<Potentials, OutOfMemory>
        ensures { IfOk result (λ potentials. potentials ≡ []) }
    {
        let entries = Vec::with_capacity(alloc, capacity)?;
        Ok(Potentials { entries })
    }

    /// Adds a node above all that are there, with its potential.
    pub fn push(&mut self, item: (NodeId, u32)) -> Result<(), OutOfMemory>
        requires { All (λ entry. entry.0.0 < item.0.0) self.old }
        ensures ok { OnOk result (self.new ≡ self.old ++ item ∷ []) }
        ensures err { OnErr result (self.new ≡ self.old) }
    {
        self.entries.push(item)?;
        Ok(())
    }

    pub fn items(&self) -> &[(NodeId, u32)]
        ensures { result.now ≡ self.now }
    {
        &self.entries
    }
}

impl Drop for Potentials {
    fn drop(self) {
        let Potentials { entries: _ } = self;
    }
}

/// What a walk must keep off.
pub struct Banned {
    /// Links that it must not use.
    pub links: LinkIds,
    /// Nodes that it must not visit after its start.
    pub nodes: NodeIds,
}

impl Drop for Banned {
    fn drop(self) {
        let Banned { links: _, nodes: _ } = self;
    }
}

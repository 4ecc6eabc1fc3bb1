//! The nodes of a plan.

ghost use Rattle.std.specs.Prelude.{◌≡◌, ◌≤◌, Err, IfOk, Ok, OnErr, OnOk, length};
ghost use Rattle.toml.specs.View.{view};
ghost use Rattle.plan_reader.specs.{Entries.{FailsBy, FailsFirst}, PlanTables.{converts, has_node_kinds, id_in, lacks_node_key, last_node, name_of, no_nodes, views, with_named, with_plan_node}, PlanTexts.node_named, Plans.plan_nodes, declared.faults.PlanError.PlanError};

use crate::faults::{EntryError, PlanEntry, PlanError, PlanKind, error_at};
use crate::limits::MOST_NUMBER;
use crate::names::{Name, Names, has_name, is_name, place_of};
use crate::values::{
    Shape, flag, has_strange, is_boolean_at, is_integer_at, is_text_at, lacks, number, text,
};
use ason_base::limits::MOST_NODES;
use ason_base::{NodeId, NodeSpec, OutOfMemory};
use std::alloc::Global;
use std::marker::Model;
use toml::Value;

/// Nodes, and their names in the same order.
pub struct Nodes {
    names: Names,
    nodes: Vec<NodeSpec>,
}

impl Model for Nodes {
    ghost use Rattle.plan_reader.specs.PlanTables.{NodeList};

    ghost Value = { NodeList };

    ghost view = { λ s. record { names = s.names; nodes = s.nodes.items } };
}

impl Nodes {
    /// No node.
    pub fn new(alloc: Global) -> Nodes
        ensures { result ≡ no_nodes }
    {
        Nodes {
            names: Names::new(alloc),
            nodes: Vec::new(alloc),
        }
    }

    fn push(&mut self, name: Name, node: NodeSpec) -> Result<(), OutOfMemory>
        ensures ok { OnOk result (self.new ≡ with_named self.old name node) }
        ensures err { OnErr result (self.new ≡ self.old) }
    {
        self.nodes.reserve(1)?;
        self.names.push(name)?;
        match self.nodes.push(node) {
            Ok(()) => Ok(()),
            Err(_) => unreachable!(),
        }
    }

    pub fn names(&self) -> &Names
        ensures { result.now ≡ self.now.names }
    {
        &self.names
    }

    pub fn nodes(&self) -> &[NodeSpec]
        ensures { result.now ≡ self.now.nodes }
    {
        &self.nodes
    }

    /// The names, in order of the nodes.
    pub fn into_names(self) -> Names
        ensures { result ≡ self.names }
    {
        let Nodes { names, nodes: _ } = self;
        names
    }

    // The id of the last node; 0, which no node has, where there is none.
    fn last(&self) -> u32
        ensures { result ≡ last_node self.now.nodes }
    {
        match self.nodes.last() {
            None => 0,
            Some(node) => node.id.0,
        }
    }
}

impl Drop for Nodes {
    fn drop(self) {
        let Nodes { names: _, nodes: _ } = self;
    }
}

/// The node of this name, where names and nodes stand in the same order.
pub fn node_named(names: &Names, nodes: &[NodeSpec], name: &[u8]) -> Option<NodeId>
    ensures { result ≡ node_named names.now nodes.now name.now }
{
    match place_of(names, name) {
        None => None,
        Some(place) => match nodes.get(place) {
            None => None,
            Some(node) => Some(node.id),
        },
    }
}

/// The id of a node or a link, where one within reach stands there.
pub fn id(value: &Value) -> Option<u32>
    ensures { result ≡ id_in (view value.now) }
{
    number(value, "id", 1, MOST_NUMBER)
}

fn has_kinds(value: &Value) -> bool
    ensures { result ≡ has_node_kinds (view value.now) }
{
    is_text_at(value, "name") && is_integer_at(value, "id") && is_boolean_at(value, "convert")
}

fn lacks_key(value: &Value) -> bool
    ensures { result ≡ lacks_node_key (view value.now) }
{
    lacks(value, "name") || lacks(value, "id")
}

fn converts(value: &Value) -> bool
    ensures { result ≡ converts (view value.now) }
{
    flag(value, "convert")
}

fn name_of(value: &Value) -> &[u8]
    ensures { result.now ≡ name_of (view value.now) }
{
    text(value, "name")
}

// A node behind those before it, or its first fault.
fn read_node(alloc: Global, nodes: &mut Nodes, value: &Value) -> Result<(), EntryError>
    ensures ok { OnOk result (with_plan_node nodes.old (view value.now) ≡ Ok nodes.new) }
    ensures fault { FailsBy result (with_plan_node nodes.old (view value.now)) }
{
    refuse_if!(has_strange(Shape::OfNode, value), Key);
    refuse_if!(lacks_key(value), Missing);
    refuse_if!(!has_kinds(value), Kind);
    let name = name_of(value);
    refuse_if!(!is_name(name), Name);
    let Some(id) = id(value) else {
        return Err(EntryError::Fault(PlanKind::Range));
    };
    refuse_if!(nodes.last() >= id, Order);
    refuse_if!(has_name(&nodes.names, name), Twice);
    let name = Name::new(alloc, name)?;
    let id = NodeId(id);
    let convert = converts(value);
    nodes.push(name, NodeSpec { id, convert })?;
    Ok(())
}

/// Reads the nodes, or gives the first fault.
pub fn read_nodes(alloc: Global, values: &[Value]) -> Result<Nodes, PlanError>
    requires { length values.now ≤ MOST_NODES }
    ensures nodes { IfOk result (λ r. plan_nodes (views values.now) ≡ Ok r) }
    ensures fault { FailsFirst result (plan_nodes (views values.now)) }
{
    let mut nodes = Nodes::new(alloc);
    'reading: for i in 0..values.len() {
        if let Err(error) = read_node(alloc, &mut nodes, &values[i]) {
            return Err(error_at(PlanEntry::Node(i as u32 + 1), error));
        }
    }
    Ok(nodes)
}

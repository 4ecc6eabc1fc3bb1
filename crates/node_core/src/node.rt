//! The node.

ghost use Rattle.std.specs.Prelude.{◌≡◌, ◌≤◌, IfOk, IsFalse, List, OnErr, OnOk, length};
ghost use Rattle.ason_base.specs.declared.tables.Out.{Out};
ghost use Rattle.mesh_rules.specs.{Changes.{changed, nothing}, LocalNodes.local_node, Rows.{call_rows, leg_rows}, State.new_node};
ghost use Rattle.mesh_nodes.specs.{FitNodes.NodeFits, LocalNodes.LocalNodeFits, Order.{CallRowsRise, LegRowsRise}, Routes.RowsFit, Sent.{AllToNeighbours, AllWritable}, Nodes.{IsAnswerOf, IsNode, IsWritableInput, MayTake, answer_to, stepped, without_last}};
ghost use Rattle.mesh_nodes.specs.declared.inputs.Input.TheVariants as inputs;

use crate::rows::{call_rows, leg_rows};
use crate::rules::{NodeParts, on_input};
use ason_base::{NodeId, OutOfMemory, Outs, TableRows, Topology};
use leg_carrying::carry_out;
use leg_table::changes::Changed;
use leg_table::{Calls, Change, NodeTables};
use link_owner::Owner;
use mesh_nodes::Input;
use share_check::Shares;
use std::alloc::Global;
use std::marker::Model;

/// One node: the tables of its links and legs, who has the labels of the fibres that come in, which
/// risks keep backups off them, and its calls.
pub struct Node {
    tables: NodeTables,
    owner: Owner,
    shares: Shares,
    calls: Calls,
}

impl Model for Node {
    ghost use Rattle.leg_table.specs.LegClaims.{AreOfOneNode};
    ghost use Rattle.mesh_nodes.specs.Nodes.{IsNode, NodeView};
    ghost use Rattle.node_core.specs.Nodes.{node_view_of};

    ghost Value = { NodeView };

    ghost view = { λ n. node_view_of n.tables n.calls };

    ghost invariant = { λ n. IsNode (node_view_of n.tables n.calls) ×
        AreOfOneNode n.tables n.owner n.shares };
}

impl Node {
    /// Node `id` of this topology, with no leg and no call. A number that no node has gives a node
    /// without links.
    pub fn new(alloc: Global, t: &Topology, id: NodeId) -> Result<Node, OutOfMemory>
        ensures { IfOk result (λ n. n ≡ record { place = local_node t.now id; state = new_node }) }
    {
        let _links = t.links();
        let tables = NodeTables::new(alloc, t, id)?;
        let owner = Owner::new(alloc, t, id)?;
        Ok(Node {
            tables,
            owner,
            shares: Shares::new(alloc),
            calls: Calls::new(alloc),
        })
    }

    /// The node's number.
    pub fn id(&self) -> NodeId
        ensures { result ≡ self.now.place.id }
    {
        self.tables.node().id
    }

    /// Law: the node knows its own links, what it keeps fits them, routes can be asked of the rows
    /// that it knows, and at most 65,536 calls begin at it.
    pub fn fits(&self)
        ensures place { LocalNodeFits self.now.place }
        ensures state { NodeFits self.now.place self.now.state }
        ensures rows { RowsFit self.now.place self.now.state }
        ensures few { length self.now.state.calls ≤ 65536 }
    {
        let _count = self.calls.count();
    }

    /// Whether a tick may change the node: none does where calls are restored by command alone.
    pub fn counts_ticks(&self) -> bool
        ensures { IsFalse result → answer_to self.now inputs.Tick ≡ nothing }
    {
        self.tables.wait() != 0
    }

    /// What the rule of an input would change and send. It changes nothing.
    pub fn answer(&self, alloc: Global, input: &Input) -> Changed
        ensures answer { IfOk result (λ c. c ≡ answer_to self.now input.now) }
        ensures near { IfOk result (λ c. AllToNeighbours self.now.place c.sent) }
        ensures written { IsWritableInput input.now → IfOk result (λ c. AllWritable c.sent) }
        ensures few { IfOk result (λ c. length c.sent ≤ 65536) }
    {
        self.fits();
        let parts = NodeParts {
            tables: &self.tables,
            owner: &self.owner,
            shares: &self.shares,
            calls: &self.calls,
        };
        let change = on_input(alloc, &parts, input)?;
        Ok(change)
    }

    // Carries out what changes by an answer to some input that may come, whatever is sent with it,
    // and hands that back. After want of memory the node is unchanged.
    fn carry_out_changes(&mut self, change: Change) -> Result<Outs, OutOfMemory>
        requires { (sent : List Out) × IsAnswerOf self.old (record change { sent = sent }) }
        ensures place { self.new.place ≡ self.old.place }
        ensures ok { OnOk result (self.new.state ≡ changed self.old.state change) }
        ensures sent { IfOk result (λ outs. outs ≡ change.sent) }
        ensures err { OnErr result (self.new ≡ self.old) }
    {
        carry_out(
            change,
            &mut self.tables,
            &mut self.owner,
            &mut self.shares,
            &mut self.calls,
        )
    }

    /// Carries out what the node answers to some input that may come, and hands back what is to be
    /// sent, in order. After want of memory the node is unchanged.
    pub fn carry_out(&mut self, change: Change) -> Result<Outs, OutOfMemory>
        requires { IsAnswerOf self.old change }
        ensures place { self.new.place ≡ self.old.place }
        ensures ok { OnOk result (self.new.state ≡ changed self.old.state change) }
        ensures sent { IfOk result (λ outs. outs ≡ change.sent) }
        ensures err { OnErr result (self.new ≡ self.old) }
    {
        self.carry_out_changes(change)
    }

    /// Carries out what the node answers to some input that may come, from which the messages that
    /// are sent were taken out. After want of memory the node is unchanged.
    pub fn carry_out_rest(&mut self, change: Change) -> Result<(), OutOfMemory>
        requires { (sent : List Out) × IsAnswerOf self.old (record change { sent = sent }) }
        ensures place { self.new.place ≡ self.old.place }
        ensures ok { OnOk result (self.new.state ≡ changed self.old.state change) }
        ensures err { OnErr result (self.new ≡ self.old) }
    {
        self.carry_out_changes(change)?;
        Ok(())
    }

    /// Takes one input by the rules of the mesh, and hands back what is to be sent, in order. Of
    /// rows of links those alone may come that the node may learn. After want of memory the node is
    /// unchanged.
    pub fn step(&mut self, alloc: Global, input: &Input) -> Result<Outs, OutOfMemory>
        requires { MayTake self.old input.now }
        ensures ok { OnOk result (self.new ≡ stepped self.old input.now) }
        ensures sent { IfOk result (λ outs. outs ≡ (answer_to self.old input.now).sent) }
        ensures near { IfOk result (AllToNeighbours self.old.place) }
        ensures written { IsWritableInput input.now → IfOk result AllWritable }
        ensures few { IfOk result (λ outs. length outs ≤ 65536) }
        ensures err { OnErr result (self.new ≡ self.old) }
    {
        let change = self.answer(alloc, input)?;
        self.carry_out(change)
    }

    /// Forgets the row that it learnt last.
    pub fn forget(&mut self)
        requires learnt { 1 ≤ length self.old.state.learnt }
        requires fits { IsNode (without_last self.old) }
        ensures { self.new ≡ without_last self.old }
    {
        self.tables.forget();
    }

    /// What a table shows of the node: its calls in order of number, its legs in order of LSP.
    pub fn rows(&self, alloc: Global) -> Result<TableRows, OutOfMemory>
        ensures calls { IfOk result
            (λ rows. rows.calls ≡ call_rows self.now.place.id self.now.state) }
        ensures legs { IfOk result (λ rows. rows.legs ≡ leg_rows self.now.place.id self.now.state) }
        ensures calls_rise { IfOk result (λ rows. CallRowsRise rows.calls) }
        ensures legs_rise { IfOk result (λ rows. LegRowsRise rows.legs) }
    {
        let id = self.tables.node().id;
        let calls = call_rows(alloc, id, &self.tables, self.calls.calls())?;
        let legs = leg_rows(alloc, id, &self.tables)?;
        Ok(TableRows { calls, legs })
    }
}

impl Drop for Node {
    fn drop(self) {
        let Node {
            tables: _,
            owner: _,
            shares: _,
            calls: _,
        } = self;
    }
}

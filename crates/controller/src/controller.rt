//! The controller of one node.

ghost use Rattle.std.specs.Prelude.{◌≡◌, ◌≤◌, ◌<◌, ◌^◌, IfOk, IsSome, OnErr, OnOk, length};
ghost use Rattle.ason_base.specs.{Network.find_node, declared.limits.TheConstants.MOST_EVENTS};
ghost use Rattle.mesh_nodes.specs.LocalNodes.{is_neighbour};
ghost use Rattle.mesh_rules.specs.Rows.{call_rows, leg_rows};
ghost use Rattle.control_channels.specs.{Controllers.{IsControllerStep, IsUnambiguous}, ReadyControllers.{AllFramesToNeighbours, IsFromNeighbour, new_controller, unacknowledged}};
ghost use Rattle.flood.specs.State.{pending_count};

use crate::reactions::react;
use ason_base::{NodeId, OutOfMemory, TableRows, Topology};
use control_channels::adjacencies::{pending, reaches};
use control_channels::peers::adjacencies;
use control_channels::{Adjacency, CoreInput, Frame, FrameMaker, Frames, Pending, begun};
use flood::Flood;
use node_core::Node;
use std::alloc::Global;
use std::marker::Model;

/// The controller of one node: the node, a reliable hop to each neighbour, and the rows of links that it floods.
pub struct Controller {
    maker: FrameMaker,
    node: Node,
    adjacencies: Vec<Adjacency>,
    flood: Flood,
    steps: u64,
}

impl Model for Controller {
    ghost use Rattle.control_channels.specs.Controllers.{ControllerState};
    ghost use Rattle.control_channels.specs.ReadyControllers.{FloodFits, IsKeptAfter};

    ghost Value = { ControllerState };

    ghost view = { λ c. record { node = c.node; adjacencies = c.adjacencies.items; flood = c.flood; steps = c.steps } };

    ghost invariant = { λ c.
        IsKeptAfter c.node.place c.adjacencies.items c.steps × FloodFits c.node.place c.node.state c.flood };
}

impl Controller {
    /// The controller of node `id`, which keeps nothing, and sent nothing. The rows of its own links are due to each neighbour.
    pub fn new(alloc: Global, t: &Topology, id: NodeId) -> Result<Controller, OutOfMemory>
        requires { IsSome (find_node t.now id) }
        ensures { IfOk result (λ c. c ≡ new_controller t.now id) }
    {
        let adjacencies = adjacencies(alloc, t, id)?;
        let flood = begun(alloc, t, id)?;
        let node = Node::new(alloc, t, id)?;
        Ok(Controller {
            maker: FrameMaker::new(alloc),
            node,
            adjacencies,
            flood,
            steps: 0,
        })
    }

    /// Takes one input, and hands back the frames that go out, in the order in which they are sent. Each is for a neighbour. What a
    /// frame bears is told by its bytes. After want of memory the controller is unchanged.
    pub fn step(&mut self, input: &CoreInput) -> Result<Frames, OutOfMemory>
        requires few { self.old.steps < MOST_EVENTS }
        requires from { IsFromNeighbour self.old.node.place input.now }
        ensures step { IfOk result (IsControllerStep self.old self.new input.now) }
        ensures one { OnOk result (IsUnambiguous input.now) }
        ensures near { IfOk result (AllFramesToNeighbours self.old.node.place) }
        ensures few { IfOk result (λ fs. length fs ≤ 2 ^ 40) }
        ensures place { self.new.node.place ≡ self.old.node.place }
        ensures err { OnErr result (self.new ≡ self.old) }
    {
        let frames = react(
            &mut self.maker,
            &mut self.node,
            &mut self.adjacencies,
            &mut self.flood,
            input,
        )?;
        self.steps += 1;
        Ok(Frames::from_vec(frames))
    }

    /// Takes back the list of frames that a step handed back, once they are sent: the next step uses its memory again.
    pub fn recycle_list(&mut self, frames: Vec<Frame>)
        ensures { self.new ≡ self.old }
    {
        self.maker.recycle_list(frames);
    }

    /// Takes back the input of a step: frames to come use the memory of its bytes, if it has any.
    pub fn recycle(&mut self, input: CoreInput)
        ensures { self.new ≡ self.old }
    {
        match input {
            CoreInput::Frame { from: _, bytes } => self.maker.recycle_bytes(bytes),
            CoreInput::Tick | CoreInput::Desk(_) => {}
        }
    }

    /// What a table shows of the node: its calls in order of number, its legs in order of LSP.
    pub fn rows(&self, alloc: Global) -> Result<TableRows, OutOfMemory>
        ensures calls { IfOk result
            (λ rows. rows.calls ≡ call_rows self.now.node.place.id self.now.node.state) }
        ensures legs { IfOk result
            (λ rows. rows.legs ≡ leg_rows self.now.node.place.id self.now.node.state) }
    {
        self.node.rows(alloc)
    }

    /// Whether this is the number of a neighbour.
    pub fn has_neighbour(&self, n: NodeId) -> bool
        ensures { result ≡ is_neighbour self.now.node.place n }
    {
        reaches(&self.adjacencies, n)
    }

    /// How many steps it made.
    pub fn steps(&self) -> u64
        ensures { result ≡ self.now.steps }
    {
        self.steps
    }

    /// How many messages of its hops, and how many rows that it floods, aren't acknowledged. A row counts from the moment when it
    /// is due to a neighbour.
    pub fn pending(&self) -> Pending
        ensures hop { result.hop ≡ unacknowledged self.now.adjacencies }
        ensures few_hop { result.hop ≤ 2 ^ 40 }
        ensures flood { result.flood ≡ pending_count self.now.flood }
        ensures few_flood { result.flood ≤ 2 ^ 40 }
    {
        self.flood.counts();
        Pending {
            hop: pending(&self.adjacencies),
            flood: self.flood.pending(),
        }
    }
}

impl Drop for Controller {
    fn drop(self) {
        let Controller {
            maker: _,
            node: _,
            adjacencies: _,
            flood: _,
            steps: _,
        } = self;
    }
}

//! The seat of a node in a world.

ghost use Rattle.std.specs.{Prelude.{◌≡◌, ◌==◌, ◌<◌, [], ◌∷◌, IfErr, IfNone, IfOk, IsSome, MatchOption, OnOk, false, is_some}, Option.option_copied};
ghost use Rattle.ason_base.specs.Network.{find_node};
ghost use Rattle.mesh_rules.specs.Rows.{call_rows, leg_rows};
ghost use Rattle.control_channels.specs.ReadyControllers.{IsFromNeighbour};
ghost use Rattle.world_core.specs.{declared.acts.Act.Act, declared.faults.Fault.Fault, Channels.{channel_to, frame_on}, Seats.{HasDone, SeatHasReacted, can_do, is_able, is_quiet, new_seat, told_seat, told_of, seat_with_item}};

use crate::acts::Act;
use crate::channel::{Channel, frame_to, is_there, new_channels, send_all};
use crate::faults::Fault;
use ason_base::limits::MOST_EVENTS;
use ason_base::{Bytes, DeskItem, Group, LinkSpec, NodeId, OutOfMemory, TableRows, Topology};
use controller::{Controller, CoreInput};
use mesh_rules::failures::news_of;
use std::alloc::Global;
use std::collections::VecDeque;
use std::marker::Model;

/// A node's controller, its desk, and the channels that lead from it.
pub struct WorldSeat {
    node: NodeId,
    controller: Controller,
    desk: VecDeque<DeskItem>,
    channels: Vec<Channel>,
}

impl Model for WorldSeat {
    ghost use Rattle.world_core.specs.Seats.{SeatState};

    ghost Value = { SeatState };

    ghost view = { λ s. record {
      node = s.node;
      controller = s.controller;
      desk = s.desk.items;
      channels = s.channels.items;
    } };
}

impl WorldSeat {
    /// The seat of node `id`, which keeps nothing and sent nothing.
    pub(crate) fn new(alloc: Global, t: &Topology, id: NodeId) -> Result<WorldSeat, OutOfMemory>
        requires { IsSome (find_node t.now id) }
        ensures { IfOk result (λ s. s ≡ new_seat t.now id) }
    {
        let channels = new_channels(alloc, t, id)?;
        let controller = Controller::new(alloc, t, id)?;
        Ok(WorldSeat {
            node: id,
            controller,
            desk: VecDeque::new(alloc),
            channels,
        })
    }

    pub(crate) fn node(&self) -> NodeId
        ensures { result ≡ self.now.node }
    {
        self.node
    }

    /// Whether it is this node's, which may make an event more.
    pub(crate) fn is_able(&self, n: NodeId) -> bool
        ensures { result ≡ is_able n.0 self.now }
    {
        self.node == n && self.controller.steps() < MOST_EVENTS
    }

    // The controller takes an input, and what it sends goes on the channels.
    fn react(&mut self, input: &CoreInput) -> Result<(), OutOfMemory>
        requires few { self.old.controller.steps < MOST_EVENTS }
        requires from { IsFromNeighbour self.old.controller.node.place input.now }
        ensures done { OnOk result (SeatHasReacted self.old self.new input.now) }
        ensures desk { self.new.desk ≡ self.old.desk }
    {
        let frames = self.controller.step(input)?;
        send_all(&mut self.channels, frames)
    }

    fn take(&mut self, from: NodeId, bytes: Bytes) -> Result<(), Fault>
        requires { self.old.controller.steps < MOST_EVENTS }
        ensures done { OnOk result (HasDone self.old (Act.Take from bytes) self.new) }
        ensures refused { IfErr result
            (λ f. f ≡ Fault.NotEnabled → can_do self.old (Act.Take from bytes) ≡ false) }
        ensures unmoved { IfErr result (λ f. f ≡ Fault.NotEnabled → self.new ≡ self.old) }
    {
        if !self.controller.has_neighbour(from) {
            return Err(Fault::NotEnabled);
        }
        self.react(&CoreInput::Frame { from, bytes })?;
        Ok(())
    }

    fn tick(&mut self) -> Result<(), Fault>
        requires { self.old.controller.steps < MOST_EVENTS }
        ensures done { OnOk result (HasDone self.old Act.Tick self.new) }
        ensures refused { IfErr result (λ f. f ≡ Fault.OutOfMemory) }
    {
        self.react(&CoreInput::Tick)?;
        Ok(())
    }

    // Takes the first item of the desk.
    fn pop(&mut self) -> Option<DeskItem>
        ensures item { MatchOption result (self.old.desk ≡ [])
            (λ i. self.old.desk ≡ i ∷ self.new.desk) }
        ensures rest { (self.new.node ≡ self.old.node) ×
            (self.new.controller ≡ self.old.controller) × (self.new.channels ≡ self.old.channels) }
        ensures unmoved { IfNone result (self.new ≡ self.old) }
    {
        self.desk.pop_front()
    }

    fn handle(&mut self) -> Result<(), Fault>
        requires { self.old.controller.steps < MOST_EVENTS }
        ensures done { OnOk result (HasDone self.old Act.Handle self.new) }
        ensures refused { IfErr result
            (λ f. f ≡ Fault.NotEnabled → can_do self.old Act.Handle ≡ false) }
        ensures unmoved { IfErr result (λ f. f ≡ Fault.NotEnabled → self.new ≡ self.old) }
    {
        match self.pop() {
            None => Err(Fault::NotEnabled),
            Some(item) => {
                self.react(&CoreInput::Desk(item))?;
                Ok(())
            }
        }
    }

    /// The node does this, where it can be done.
    pub(crate) fn act(&mut self, act: Act) -> Result<(), Fault>
        requires { self.old.controller.steps < MOST_EVENTS }
        ensures done { OnOk result (HasDone self.old act self.new) }
        ensures refused { IfErr result (λ f. f ≡ Fault.NotEnabled → can_do self.old act ≡ false) }
        ensures unmoved { IfErr result (λ f. f ≡ Fault.NotEnabled → self.new ≡ self.old) }
    {
        match act {
            Act::Take { from, bytes } => self.take(from, bytes),
            Act::Tick => self.tick(),
            Act::Handle => self.handle(),
        }
    }

    /// Puts an item at the end of the desk.
    pub(crate) fn put(&mut self, item: DeskItem) -> Result<(), OutOfMemory>
        ensures { OnOk result (self.new ≡ seat_with_item item self.old) }
    {
        self.desk.push_back(item)?;
        Ok(())
    }

    // Puts what the node is told of the link at the end of the desk.
    fn tell_of(
        &mut self,
        before: &[Group],
        after: &[Group],
        link: &LinkSpec,
    ) -> Result<(), OutOfMemory>
        requires { (link.now.low.0 == link.now.high.0) ≡ false }
        ensures { OnOk result (self.new ≡ told_of before.now after.now link.now self.old) }
    {
        match news_of(before, after, self.node, link) {
            None => Ok(()),
            Some(item) => self.put(item),
        }
    }

    /// Puts what the node is told at the end of the desk, where other groups have failed than before.
    pub(crate) fn tell(
        &mut self,
        t: &Topology,
        before: &[Group],
        after: &[Group],
    ) -> Result<(), OutOfMemory>
        ensures { OnOk result (self.new ≡ told_seat t.now before.now after.now self.old) }
    {
        for link in t.links() {
            self.tell_of(before, after, link)?;
        }
        Ok(())
    }

    /// Whether a channel leads from here to this node.
    pub(crate) fn leads_to(&self, n: NodeId) -> bool
        ensures { result ≡ is_some (channel_to self.now.channels n.0) }
    {
        is_there(&self.channels, n)
    }

    /// The frame with this number on the channel from here to this node.
    pub(crate) fn frame(&self, n: NodeId, number: u64) -> Option<&Bytes>
        ensures { option_copied result ≡ frame_on (channel_to self.now.channels n.0) number }
    {
        frame_to(&self.channels, n, number)
    }

    /// What a table shows of the node.
    pub(crate) fn rows(&self, alloc: Global) -> Result<TableRows, OutOfMemory>
        ensures calls { IfOk result
            (λ rows. rows.calls ≡
            call_rows self.now.controller.node.place.id self.now.controller.node.state) }
        ensures legs { IfOk result
            (λ rows. rows.legs ≡
            leg_rows self.now.controller.node.place.id self.now.controller.node.state) }
    {
        self.controller.rows(alloc)
    }

    /// Whether nothing waits on the desk, and nothing that the node sent isn't acknowledged.
    pub(crate) fn is_quiet(&self) -> bool
        ensures { result ≡ is_quiet self.now }
    {
        let pending = self.controller.pending();
        self.desk.is_empty() && pending.hop == 0 && pending.flood == 0
    }
}

impl Drop for WorldSeat {
    fn drop(self) {
        let WorldSeat {
            node: _,
            controller: _,
            desk: _,
            channels: _,
        } = self;
    }
}

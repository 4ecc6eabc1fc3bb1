//! A world of controllers, and what each event makes of it.

ghost use Rattle.std.specs.Prelude.{◌≡◌, ◌++◌, map, IfOk, OnOk, position, None, Some};
ghost use Rattle.ason_base.specs.{Network.Network, declared.commands.DeskItem.TheVariants.Order, declared.commands.Event.Event};
ghost use Rattle.world_core.specs.{declared.acts.Act.Act, declared.faults.Fault.Fault, Replays.{HasActed, HasStepped, IsDisabled, IsForNobody, IsGiven, IsPut, HaveHeard, HoldsIfRefused, IsUnable, ShowsCalls, ShowsLegs, StateStandsFor, TellsQuiet, ingress_of, setup_numbers}, Seats.{frame_there, is_seat_at, told_seat}};
ghost use Rattle.mesh_rules.specs.Failures.{failed_after};
ghost use Rattle.world_rules.specs.Worlds.{world_start};

use crate::acts::Act;
use crate::faults::Fault;
use crate::noise::spells_nothing;
use crate::seat::WorldSeat;
use crate::seats::{
    able_place, act_at, are_quiet, frame_there, is_channel_there, new_seats, place_of, put_at,
    rows_of, tell_all,
};
use ason_base::{
    Bytes, CallNo, Command, Copied, DeskItem, Event, Group, NodeId, OutOfMemory, TableRows,
    Topology,
};
use mesh_rules::commands::{is_again, is_valid};
use mesh_rules::failures::failed_after;
use std::alloc::Global;
use std::marker::Model;

/// The controllers of a network with their desks, all that was ever sent on each channel, the call numbers of the setups that
/// were posted, and the groups that have failed.
pub struct World {
    seats: Vec<WorldSeat>,
    posted: Vec<CallNo>,
    failed: Vec<Group>,
}

impl Model for World {
    ghost use Rattle.world_core.specs.Replays.{WorldState};

    ghost Value = { WorldState };

    ghost view = { λ w. record {
      seats = w.seats.items;
      posted = w.posted.items;
      failed = w.failed.items;
    } };
}

// The node on whose desk a command goes, if it is a call's.
fn ingress_of(command: &Command) -> Option<NodeId>
    ensures { result ≡ ingress_of command.now }
{
    match command {
        Command::Setup { from, .. }
        | Command::Release { from, .. }
        | Command::Protect { from, .. }
        | Command::Retry { from, .. }
        | Command::Revert { from, .. } => Some(*from),
        Command::Fail { .. } | Command::Repair { .. } => None,
    }
}

impl World {
    /// Nothing stands, nothing was sent, and nothing has failed. The rows of a node's own links are due to each of its neighbours.
    pub(crate) fn new(alloc: Global, t: &Topology) -> Result<World, OutOfMemory>
        ensures { IfOk result (λ w. StateStandsFor t.now w (world_start t.now)) }
    {
        let _nodes = t.nodes();
        let seats = new_seats(alloc, t)?;
        Ok(World {
            seats,
            posted: Vec::new(alloc),
            failed: Vec::new(alloc),
        })
    }

    // The node does this, where it may.
    fn act(&mut self, node: NodeId, act: Act) -> Result<(), Fault>
        ensures done { OnOk result (HasActed self.old node act self.new) }
        ensures refused { HoldsIfRefused result (IsUnable self.old node act) }
        ensures unmoved { HoldsIfRefused result (self.new ≡ self.old) }
    {
        match able_place(&self.seats, node) {
            None => Err(Fault::NotEnabled),
            Some(place) => act_at(&mut self.seats, place, act),
        }
    }

    /// The frame with this number, from 1, on the channel from one node to the other; none where no such frame was sent.
    pub fn frame(
        &self,
        alloc: Global,
        from: NodeId,
        to: NodeId,
        number: u64,
    ) -> Result<Option<Bytes>, OutOfMemory>
        ensures { IfOk result (λ o. o ≡ frame_there self.now.seats from to number) }
    {
        match frame_there(&self.seats, from, to, number) {
            None => Ok(None),
            Some(frame) => {
                let bytes = frame.copy(alloc)?;
                Ok(Some(bytes))
            }
        }
    }

    fn deliver(&mut self, alloc: Global, to: NodeId, from: NodeId, number: u64) -> Result<(), Fault>
        ensures done { OnOk result
            ((t : Network) → HasStepped t self.old (Event.Deliver to from number) self.new) }
        ensures refused { HoldsIfRefused result
            ((t : Network) → IsDisabled t self.old (Event.Deliver to from number)) }
        ensures unmoved { HoldsIfRefused result (self.new ≡ self.old) }
    {
        match self.frame(alloc, from, to, number)? {
            None => Err(Fault::NotEnabled),
            Some(bytes) => self.act(to, Act::Take { from, bytes }),
        }
    }

    fn make_noise(
        &mut self,
        alloc: Global,
        to: NodeId,
        from: NodeId,
        bytes: &Bytes,
    ) -> Result<(), Fault>
        ensures done { OnOk result
            ((t : Network) → HasStepped t self.old (Event.Noise to from bytes.now) self.new) }
        ensures refused { HoldsIfRefused result
            ((t : Network) → IsDisabled t self.old (Event.Noise to from bytes.now)) }
        ensures unmoved { HoldsIfRefused result (self.new ≡ self.old) }
    {
        if !is_channel_there(&self.seats, from, to) {
            return Err(Fault::NotEnabled);
        }
        if !spells_nothing(alloc, bytes.items())? {
            return Err(Fault::NotEnabled);
        }
        let bytes = bytes.copy(alloc)?;
        self.act(to, Act::Take { from, bytes })
    }

    fn tick(&mut self, node: NodeId) -> Result<(), Fault>
        ensures done { OnOk result
            ((t : Network) → HasStepped t self.old (Event.Tick node) self.new) }
        ensures refused { HoldsIfRefused result
            ((t : Network) → IsDisabled t self.old (Event.Tick node)) }
        ensures unmoved { HoldsIfRefused result (self.new ≡ self.old) }
    {
        self.act(node, Act::Tick)
    }

    fn handle(&mut self, node: NodeId) -> Result<(), Fault>
        ensures done { OnOk result
            ((t : Network) → HasStepped t self.old (Event.Desk node) self.new) }
        ensures refused { HoldsIfRefused result
            ((t : Network) → IsDisabled t self.old (Event.Desk node)) }
        ensures unmoved { HoldsIfRefused result (self.new ≡ self.old) }
    {
        self.act(node, Act::Handle)
    }

    // Puts a command on the desk of a node.
    fn put(&mut self, alloc: Global, node: NodeId, command: &Command) -> Result<(), Fault>
        ensures done { OnOk result (IsPut self.old.seats node (Order command.now) self.new.seats) }
        ensures refused { HoldsIfRefused result (position (is_seat_at node.0) self.old.seats ≡ None) }
        ensures unmoved { HoldsIfRefused result (self.new ≡ self.old) }
        ensures posted { self.new.posted ≡ self.old.posted }
        ensures failed { self.new.failed ≡ self.old.failed }
    {
        match place_of(&self.seats, node) {
            None => Err(Fault::NotEnabled),
            Some(place) => {
                let item = DeskItem::Order(command.copy(alloc)?);
                put_at(&mut self.seats, place, item)?;
                Ok(())
            }
        }
    }

    // Each node is told what has changed, where these groups have failed.
    fn tell(&mut self, t: &Topology, failed: &[Group]) -> Result<(), OutOfMemory>
        ensures done { OnOk result
            (self.new.seats ≡ map (told_seat t.now self.old.failed failed.now) self.old.seats) }
        ensures posted { self.new.posted ≡ self.old.posted }
    {
        tell_all(&mut self.seats, t, &self.failed, failed)
    }

    // A call's command goes to the desk of its ingress. Of another each node is told what it changes.
    fn order(
        &mut self,
        alloc: Global,
        t: &Topology,
        command: &Command,
        failed: &[Group],
    ) -> Result<(), Fault>
        requires { failed.now ≡ failed_after command.now self.old.failed }
        ensures done { OnOk result
            (HaveHeard t.now self.old command.now (ingress_of command.now) self.new.seats) }
        ensures refused { HoldsIfRefused result (IsForNobody self.old.seats command.now) }
        ensures unmoved { HoldsIfRefused result (self.new ≡ self.old) }
        ensures posted { self.new.posted ≡ self.old.posted }
    {
        match ingress_of(command) {
            None => {
                self.tell(t, failed)?;
                Ok(())
            }
            Some(node) => self.put(alloc, node, command),
        }
    }

    // The number of a setup is taken.
    fn take_number(&mut self, command: &Command) -> Result<(), OutOfMemory>
        ensures done { OnOk result (self.new.posted ≡ self.old.posted ++ setup_numbers command.now) }
        ensures seats { self.new.seats ≡ self.old.seats }
        ensures failed { self.new.failed ≡ self.old.failed }
    {
        if let Command::Setup { call, .. } = command {
            self.posted.push(*call)?;
        }
        Ok(())
    }

    fn give(&mut self, alloc: Global, t: &Topology, command: &Command) -> Result<(), Fault>
        ensures done { OnOk result (IsGiven t.now self.old command.now self.new) }
        ensures refused { HoldsIfRefused result (IsForNobody self.old.seats command.now) }
        ensures unmoved { HoldsIfRefused result (self.new ≡ self.old) }
    {
        let failed = failed_after(alloc, &self.failed, command)?;
        self.order(alloc, t, command, &failed)?;
        self.take_number(command)?;
        self.failed = failed;
        Ok(())
    }

    fn post(&mut self, alloc: Global, t: &Topology, command: &Command) -> Result<(), Fault>
        ensures done { OnOk result (HasStepped t.now self.old (Event.Post command.now) self.new) }
        ensures refused { HoldsIfRefused result (IsDisabled t.now self.old (Event.Post command.now)) }
        ensures unmoved { HoldsIfRefused result (self.new ≡ self.old) }
    {
        let _links = t.links();
        if !is_valid(t, command) {
            return Err(Fault::NotEnabled);
        }
        if is_again(&self.posted, command) {
            return Err(Fault::NotEnabled);
        }
        self.give(alloc, t, command)
    }

    /// Makes an event, where it is enabled. One that isn't changes nothing.
    pub(crate) fn step(&mut self, alloc: Global, t: &Topology, event: &Event) -> Result<(), Fault>
        ensures done { OnOk result (HasStepped t.now self.old event.now self.new) }
        ensures refused { HoldsIfRefused result (IsDisabled t.now self.old event.now) }
        ensures unmoved { HoldsIfRefused result (self.new ≡ self.old) }
    {
        match event {
            Event::Deliver { to, from, number } => self.deliver(alloc, *to, *from, *number),
            Event::Noise { to, from, bytes } => self.make_noise(alloc, *to, *from, bytes),
            Event::Tick { node } => self.tick(*node),
            Event::Desk { node } => self.handle(*node),
            Event::Post { command } => self.post(alloc, t, command.value()),
        }
    }

    /// What a table shows of the world: the calls and the legs of each node, nodes in order of number.
    pub fn rows(&self, alloc: Global) -> Result<TableRows, OutOfMemory>
        ensures calls { IfOk result (λ rows. ShowsCalls self.now rows.calls) }
        ensures legs { IfOk result (λ rows. ShowsLegs self.now rows.legs) }
    {
        rows_of(alloc, &self.seats)
    }

    /// Whether every desk is empty, and each message and each row of a link is acknowledged.
    pub fn quiet(&self) -> bool
        ensures { TellsQuiet self.now result }
    {
        are_quiet(&self.seats)
    }
}

impl Drop for World {
    fn drop(self) {
        let World {
            seats: _,
            posted: _,
            failed: _,
        } = self;
    }
}

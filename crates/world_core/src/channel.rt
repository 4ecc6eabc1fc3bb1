//! The channels that lead from a node.

ghost use Rattle.std.specs.{Prelude.{◌≡◌, ◌<◌, ◌++◌, [], ◌∷◌, IfOk, OnOk, if◌then◌else◌, is_some, length, map, position}, List.list_any, Option.option_copied};
ghost use Rattle.ason_base.specs.Network.{are_ends};
ghost use Rattle.world_core.specs.Channels.{AreSent, ChannelState, IsChannelChangedAt, channel_to, frame_numbered, frame_on, leads_to, new_channel, receivers, with_frame};
ghost use Rattle.world_rules.specs.WorldRuns.{is_world_channel};

use ason_base::{Bytes, NodeId, OutOfMemory, Topology};
use controller::{Frame, Frames};
use mesh_rules::commands::has_node;
use std::alloc::Global;
use std::marker::Model;

/// All that was ever sent from a node to another, the oldest first. Nothing is taken off.
pub struct Channel {
    to: NodeId,
    frames: Vec<Bytes>,
}

impl Model for Channel {
    ghost use Rattle.world_core.specs.Channels.{ChannelState};

    ghost Value = { ChannelState };

    ghost view = { λ c. record { to = c.to; frames = c.frames.items } };
}

impl Channel {
    // A channel on which nothing was sent.
    fn new(alloc: Global, to: NodeId) -> Channel
        ensures { result ≡ new_channel to }
    {
        Channel {
            to,
            frames: Vec::new(alloc),
        }
    }

    fn to(&self) -> NodeId
        ensures { result ≡ self.now.to }
    {
        self.to
    }

    fn push(&mut self, frame: Bytes) -> Result<(), OutOfMemory>
        ensures { OnOk result (self.new ≡ with_frame frame self.old) }
    {
        self.frames.push(frame)?;
        Ok(())
    }

    // The frame with this number, of which the first has number 1.
    fn frame(&self, number: u64) -> Option<&Bytes>
        ensures { option_copied result ≡ frame_numbered self.now.frames number }
    {
        if number == 0 {
            None
        } else {
            self.frames.get((number - 1) as usize)
        }
    }
}

impl Drop for Channel {
    fn drop(self) {
        let Channel { to: _, frames: _ } = self;
    }
}

fn place_of(channels: &[Channel], n: NodeId) -> Option<usize>
    ensures { result ≡ position (leads_to n.0) channels.now }
{
    channels.iter().position(|channel| channel.to() == n)
}

fn push_at(channels: &mut Vec<Channel>, place: usize, frame: Bytes) -> Result<(), OutOfMemory>
    requires { place < length channels.old.items }
    ensures { OnOk result
        (IsChannelChangedAt channels.old.items place (with_frame frame) channels.new.items) }
{
    let channel = &mut channels[place];
    channel.push(frame)
}

// A frame goes on the channel to the node that it is for.
fn send(channels: &mut Vec<Channel>, frame: Frame) -> Result<(), OutOfMemory>
    ensures { OnOk result (AreSent (frame ∷ []) channels.old.items channels.new.items) }
{
    let Frame { to, bytes } = frame;
    match place_of(channels, to) {
        None => Ok(()),
        Some(place) => push_at(channels, place, bytes),
    }
}

/// Sends these frames, in order.
pub(crate) fn send_all(channels: &mut Vec<Channel>, frames: Frames) -> Result<(), OutOfMemory>
    ensures { OnOk result (AreSent frames channels.old.items channels.new.items) }
{
    for frame in frames.into_vec() {
        send(channels, frame)?;
    }
    Ok(())
}

fn channel_to(channels: &[Channel], n: NodeId) -> Option<&Channel>
    ensures { option_copied result ≡ channel_to channels.now n.0 }
{
    channels.iter().find(|channel| channel.to() == n)
}

/// Whether a channel leads to this node.
pub(crate) fn is_there(channels: &[Channel], n: NodeId) -> bool
    ensures { result ≡ is_some (channel_to channels.now n.0) }
{
    channel_to(channels, n).is_some()
}

/// The frame with this number on the channel to a node.
pub(crate) fn frame_to(channels: &[Channel], n: NodeId, number: u64) -> Option<&Bytes>
    ensures { option_copied result ≡ frame_on (channel_to channels.now n.0) number }
{
    match channel_to(channels, n) {
        None => None,
        Some(channel) => channel.frame(number),
    }
}

// New channels

fn are_joined(t: &Topology, u: NodeId, d: NodeId) -> bool
    ensures { result ≡ list_any (λ l. are_ends l.low l.high u d) t.now.links }
{
    t.links().iter().any(|l| { (l.low == u && l.high == d) || (l.low == d && l.high == u) })
}

// Whether a channel leads from one node to the other.
fn is_channel(t: &Topology, u: NodeId, d: NodeId) -> bool
    ensures { result ≡ is_world_channel t.now u d }
{
    has_node(t, u) && has_node(t, d) && u != d && are_joined(t, u, d)
}

// The channel to this node, if one leads there, comes after those before it.
fn add_channel(
    channels: &mut Vec<Channel>,
    alloc: Global,
    t: &Topology,
    n: NodeId,
    m: NodeId,
) -> Result<(), OutOfMemory>
    ensures { OnOk result (channels.new.items ≡ channels.old.items ++
        (if is_world_channel t.now n m then new_channel m ∷ [] else [])) }
{
    if is_channel(t, n, m) {
        channels.push(Channel::new(alloc, m))?;
    }
    Ok(())
}

/// The channels from a node, on which nothing was sent, in order of the node to which they lead.
pub(crate) fn new_channels(
    alloc: Global,
    t: &Topology,
    n: NodeId,
) -> Result<Vec<Channel>, OutOfMemory>
    ensures { IfOk result (λ v. v.items ≡ map new_channel (receivers t.now n)) }
{
    let mut channels = Vec::new(alloc);
    for m in t.nodes() {
        add_channel(&mut channels, alloc, t, n, m.id)?;
    }
    Ok(channels)
}

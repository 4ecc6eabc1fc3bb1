//! The hops of a node, one a neighbour, in order of neighbour.

ghost use Rattle.std.specs.{Prelude.{◌≡◌, ◌+◌, ◌-◌, ◌<◌, ◌≤◌, ◌==◌, ◌^◌, ◌++◌, ◌∷◌, [], ℕ, All, IfOk, IsTrue, OnErr, OnOk, length, map, position, slice_get, Some}, Option.option_copied, List.flat_map};
ghost use Rattle.ason_base.specs.{declared.limits.TheConstants.MOST_LINKS, Writable.IsWritableMsg};
ghost use Rattle.flood.specs.{declared.frames.Content.Content, Frames.{IsFrame, frame_bytes}};
ghost use Rattle.hop_reliable.specs.{Ages.{is_due, older_age}, Hop.{again, heard_as, last_number, numbered, older, with_next}};
ghost use Rattle.rsvp_messages.specs.Writable.{IsWritable};
ghost use Rattle.control_channels.specs.{declared.adjacencies.Adjacency.Adjacency, Adjacencies.{AllCanGo, CanGoAgain, IsHopChangedAt, adjacency_at, aged, again_to, committed, hop_at, is_adjacency_to, next_at, packets_on, peer_numbers, prepared_at, reaches, rested, sendings_to, sent_on, sent_one, taken_at, taken_by}, Frames.{AllSpelled, frames_to, sent_frame}, ReadyControllers.unacknowledged};

use crate::frames::{Frame, FrameMaker};
use ason_base::{Msg, MsgId, NodeId, Out, OutOfMemory, Packet};
use flood::ContentRef;
use hop_reliable::{Heard, Hop, Unacked};
use rsvp_messages::PacketRef;
use std::alloc::Global;

/// The hop to one neighbour.
pub struct Adjacency {
    pub peer: NodeId,
    pub hop: Hop,
}

impl Drop for Adjacency {
    fn drop(self) {
        let Adjacency { peer: _, hop: _ } = self;
    }
}

fn place_of(adjacencies: &[Adjacency], n: NodeId) -> Option<usize>
    ensures { result ≡ position (is_adjacency_to n.0) adjacencies.now }
{
    adjacencies.iter().position(|adjacency| adjacency.peer == n)
}

fn adjacency_at(adjacencies: &[Adjacency], n: NodeId) -> Option<&Adjacency>
    ensures { option_copied result ≡ adjacency_at adjacencies.now n.0 }
{
    adjacencies.iter().find(|adjacency| adjacency.peer == n)
}

/// Whether there is a hop to this node.
pub fn reaches(adjacencies: &[Adjacency], n: NodeId) -> bool
    ensures { result ≡ reaches adjacencies.now n.0 }
{
    adjacency_at(adjacencies, n).is_some()
}

// Receiving

/// What a packet is to the hop from this neighbour. It changes nothing.
pub fn hears(adjacencies: &[Adjacency], from: NodeId, p: &Packet) -> Heard
    requires { IsTrue (reaches adjacencies.now from.0) }
    ensures heard { result ≡ heard_as (hop_at adjacencies.now from.0) p.now }
    ensures next { result ≡ Heard.Next → (hop_at adjacencies.now from.0).handed_up + 1 < 2 ^ 32 }
{
    match adjacency_at(adjacencies, from) {
        None => Heard::Acked,
        Some(adjacency) => adjacency.hop.hears(p),
    }
}

fn take_at(adjacencies: &mut [Adjacency], place: usize, heard: Heard, acks: &[MsgId])
    requires within { place < length adjacencies.old }
    requires next { (a : Adjacency) → slice_get adjacencies.old place ≡ Some a →
        heard ≡ Heard.Next → a.hop.state.handed_up + 1 < 2 ^ 32 }
    ensures { IsHopChangedAt adjacencies.old place (taken_by heard acks.now) adjacencies.new }
{
    let adjacency = &mut adjacencies[place];
    adjacency.hop.take(heard, acks);
}

/// The hop from this neighbour takes a packet that is this, with these acknowledgements.
pub fn take(adjacencies: &mut [Adjacency], from: NodeId, heard: Heard, acks: &[MsgId])
    requires reached { IsTrue (reaches adjacencies.old from.0) }
    requires next { heard ≡ Heard.Next → (hop_at adjacencies.old from.0).handed_up + 1 < 2 ^ 32 }
    ensures hops { (d : ℕ) → prepared_at adjacencies.new d ≡
        taken_at adjacencies.old from heard acks.now d }
    ensures peers { peer_numbers adjacencies.new ≡ peer_numbers adjacencies.old }
    ensures rest { map rested adjacencies.old ≡ adjacencies.old →
        map rested adjacencies.new ≡ adjacencies.new }
{
    match place_of(adjacencies, from) {
        None => {}
        Some(place) => take_at(adjacencies, place, heard, acks),
    }
}

// Sending

// Prepares a message, and frames it as it goes out first.
fn prepare_framed(
    maker: &mut FrameMaker,
    me: NodeId,
    to: NodeId,
    hop: &mut Hop,
    msg: Msg,
) -> Result<Frame, OutOfMemory>
    requires below { last_number hop.old < 2 ^ 32 - 1 }
    requires writable { IsWritableMsg msg }
    ensures ok { OnOk result (hop.new ≡ with_next hop.old msg) }
    ensures err { OnErr result (hop.new ≡ hop.old) }
    ensures frame { IfOk result
        (λ f. f ≡ sent_frame me to (Content.Message (numbered (last_number hop.old + 1) msg))) }
    ensures spelled { IfOk result
        (λ f. IsFrame f.bytes (Content.Message (numbered (last_number hop.old + 1) msg))) }
{
    let packet = PacketRef {
        id: Some(hop.next_id()),
        acks: &[],
        body: Some(&msg),
    };
    let frame = maker.frame(me, to, &ContentRef::message(packet))?;
    hop.keep(msg)?;
    Ok(frame)
}

fn prepare_at(
    maker: &mut FrameMaker,
    me: NodeId,
    adjacencies: &mut [Adjacency],
    place: usize,
    out: Out,
) -> Result<Frame, OutOfMemory>
    requires within { place < length adjacencies.old }
    requires below { (a : Adjacency) → slice_get adjacencies.old place ≡ Some a →
        last_number a.hop < 2 ^ 32 - 1 }
    requires writable { IsWritableMsg out.msg }
    ensures ok { OnOk result
        (IsHopChangedAt adjacencies.old place (λ h. with_next h out.msg) adjacencies.new) }
    ensures err { OnErr result (IsHopChangedAt adjacencies.old place (λ h. h) adjacencies.new) }
    ensures frame { IfOk result (λ f. (a : Adjacency) → slice_get adjacencies.old place ≡ Some a →
        f ≡ sent_frame me out.to (Content.Message (numbered (last_number a.hop + 1) out.msg))) }
    ensures spelled { IfOk result (λ f. (a : Adjacency) → slice_get adjacencies.old place ≡ Some a →
        IsFrame f.bytes (Content.Message (numbered (last_number a.hop + 1) out.msg))) }
{
    let (to, msg) = out.into_parts();
    let adjacency = &mut adjacencies[place];
    prepare_framed(maker, me, to, &mut adjacency.hop, msg)
}

// Prepares one message, and hands back its frame.
fn prepare(
    maker: &mut FrameMaker,
    me: NodeId,
    adjacencies: &mut [Adjacency],
    out: Out,
) -> Result<Frame, OutOfMemory>
    requires reached { IsTrue (reaches adjacencies.old out.to.0) }
    requires below { (next_at adjacencies.old out.to.0).sent < 2 ^ 32 - 1 }
    requires writable { IsWritableMsg out.msg }
    ensures hops { OnOk result
        ((d : ℕ) → next_at adjacencies.new d ≡ sent_one (next_at adjacencies.old) out d) }
    ensures rest { map rested adjacencies.new ≡ map rested adjacencies.old }
    ensures frame { IfOk result
        (λ f. f ≡ sent_frame me out.to
        (Content.Message (numbered ((next_at adjacencies.old out.to.0).sent + 1) out.msg))) }
    ensures spelled { IfOk result
        (λ f. IsFrame f.bytes
        (Content.Message (numbered ((next_at adjacencies.old out.to.0).sent + 1) out.msg))) }
{
    match place_of(adjacencies, out.to) {
        None => Err(OutOfMemory),
        Some(place) => prepare_at(maker, me, adjacencies, place, out),
    }
}

/// Prepares these messages, in order. Their frames go to the end of the list.
pub fn prepare_all(
    maker: &mut FrameMaker,
    me: NodeId,
    adjacencies: &mut [Adjacency],
    frames: &mut Vec<Frame>,
    outs: Vec<Out>,
) -> Result<(), OutOfMemory>
    requires { AllCanGo (reaches adjacencies.old) (next_at adjacencies.old) outs.items }
    ensures hops { OnOk result
        ((d : ℕ) → next_at adjacencies.new d ≡ sent_on (next_at adjacencies.old) outs.items d) }
    ensures rest { map rested adjacencies.new ≡ map rested adjacencies.old }
    ensures frames { OnOk result
        (frames.new.items ≡ frames.old.items ++
        frames_to me (packets_on (next_at adjacencies.old) outs.items)) }
    ensures spelled { OnOk result
        (AllSpelled me (packets_on (next_at adjacencies.old) outs.items)) }
{
    for out in outs {
        let frame = prepare(maker, me, adjacencies, out)?;
        frames.push(frame)?;
    }
    Ok(())
}

/// Sends all that is prepared.
pub fn commit_all(adjacencies: &mut [Adjacency])
    ensures { adjacencies.new ≡ map committed adjacencies.old }
{
    for adjacency in adjacencies.iter_mut() {
        adjacency.hop.commit();
    }
}

/// Forgets all that is prepared.
pub fn discard_all(adjacencies: &mut [Adjacency])
    ensures { adjacencies.new ≡ map rested adjacencies.old }
{
    for adjacency in adjacencies.iter_mut() {
        adjacency.hop.discard();
    }
}

// Ticks

/// Makes each unacknowledged message a tick older.
pub fn age_all(adjacencies: &mut [Adjacency])
    ensures { adjacencies.new ≡ map aged adjacencies.old }
{
    for adjacency in adjacencies.iter_mut() {
        adjacency.hop.age();
    }
}

/// The frame of this packet goes to the end of the list.
pub(crate) fn frame_one(
    maker: &mut FrameMaker,
    me: NodeId,
    to: NodeId,
    p: PacketRef<'_>,
    frames: &mut Vec<Frame>,
) -> Result<(), OutOfMemory>
    requires { IsWritable p }
    ensures frames { OnOk result
        (frames.new.items ≡ frames.old.items ++ sent_frame me to (Content.Message p.entry) ∷ []) }
    ensures spelled { OnOk result
        (IsFrame (frame_bytes me (Content.Message p.entry)) (Content.Message p.entry)) }
{
    let frame = maker.frame(me, to, &ContentRef::message(p))?;
    frames.push(frame)?;
    Ok(())
}

// The frame of a message that goes again goes to the end of the list.
fn frame_waiting(
    maker: &mut FrameMaker,
    me: NodeId,
    to: NodeId,
    waiting: &Unacked,
    frames: &mut Vec<Frame>,
) -> Result<(), OutOfMemory>
    requires due { IsTrue (is_due (older_age waiting.now.age)) }
    requires writable { IsWritableMsg waiting.now.msg }
    ensures frames { OnOk result
        (frames.new.items ≡ frames.old.items ++ frames_to me
        (sendings_to to (again (older waiting.now ∷ [])))) }
    ensures spelled { OnOk result
        (AllSpelled me (sendings_to to (again (older waiting.now ∷ [])))) }
{
    let packet = PacketRef {
        id: Some(waiting.id()),
        acks: &[],
        body: Some(&waiting.msg),
    };
    frame_one(maker, me, to, packet, frames)
}

// What the next tick sends again to a neighbour goes to the end of the list.
fn frame_again(
    maker: &mut FrameMaker,
    me: NodeId,
    adjacency: &Adjacency,
    frames: &mut Vec<Frame>,
) -> Result<(), OutOfMemory>
    requires { CanGoAgain adjacency.now.hop.state }
    ensures frames { OnOk result
        (frames.new.items ≡ frames.old.items ++ frames_to me (again_to adjacency.now)) }
    ensures spelled { OnOk result (AllSpelled me (again_to adjacency.now)) }
{
    for waiting in adjacency.hop.waiting() {
        if waiting.goes_next() {
            frame_waiting(maker, me, adjacency.peer, waiting, frames)?;
        }
    }
    Ok(())
}

/// What the next tick sends again goes to the end of the list, by neighbour and then by number.
pub fn frame_due(
    maker: &mut FrameMaker,
    me: NodeId,
    adjacencies: &[Adjacency],
    frames: &mut Vec<Frame>,
) -> Result<(), OutOfMemory>
    requires { All (λ a. CanGoAgain a.hop.state) adjacencies.now }
    ensures frames { OnOk result
        (frames.new.items ≡ frames.old.items ++ frames_to me (flat_map again_to adjacencies.now)) }
    ensures spelled { OnOk result (AllSpelled me (flat_map again_to adjacencies.now)) }
{
    for adjacency in adjacencies {
        frame_again(maker, me, adjacency, frames)?;
    }
    Ok(())
}

/// How many messages aren't acknowledged.
pub fn pending(adjacencies: &[Adjacency]) -> usize
    requires { length adjacencies.now ≤ MOST_LINKS }
    ensures count { result ≡ unacknowledged adjacencies.now }
    ensures few { result ≤ 2 ^ 40 }
{
    let mut total = 0;
    for adjacency in adjacencies {
        total += adjacency.hop.pending();
    }
    total
}

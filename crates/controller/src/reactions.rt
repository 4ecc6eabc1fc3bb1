//! What each input does to a node and its hops, and the frames that go out. Whatever may be refused comes first: the frames are
//! made, the messages prepared at their hops, the node's answer carried out. Then the hops take what came and send.

ghost use Rattle.std.specs.{Prelude.{◌≡◌, ◌≢◌, ◌≤◌, ◌+◌, ◌^◌, ◌++◌, [], ℕ, None, IfOk, IsTrue, OnErr, OnOk, length, map}, Option.option_to_list};
ghost use Rattle.wire_buf.specs.Codecs.{HasOneMeaning};
ghost use Rattle.ason_base.specs.declared.messages.Packet.{Packet};
ghost use Rattle.mesh_nodes.specs.{LocalNodes.is_neighbour, Nodes.{IsWritableInput, MayTake, answer_to, stepped}};
ghost use Rattle.mesh_rules.specs.Changes.{changed, nothing};
ghost use Rattle.mesh_nodes.specs.declared.inputs.Input.TheVariants as inputs;
ghost use Rattle.control_channels.specs.{Adjacencies.{ArePrepared, committed, reaches, rested}, Answers.{BodyCanBePassedOn, body_answer}, Controllers.{AddsAnswer, AnswerIsSpelled, AreMade, Becomes, IsMade, IsReaction, IsUnambiguous, flood_after, frame_step, handed_body, idle_step, item_step, packet_step, parts, tick_step}, Frames.{AllSpelled, frames_to}, ReadyControllers.{AllFramesToNeighbours, FloodFits, IsFromNeighbour, IsKeptAfter, IsReady}};
ghost use Rattle.flood.specs.{declared.frames.Content.Content, Frames.{IsFrame, SpellsNothing}, State.ticked_flood};
ghost use Rattle.rsvp_messages.specs.Packets.{packet_read};

use crate::floods::take_flood;
use crate::resting::is_at_rest;
use ason_base::{Copied, DecodeError, DeskItem, Msg, NodeId, OutOfMemory, Packet};
use control_channels::adjacencies::{
    age_all, commit_all, discard_all, frame_due, hears, prepare_all, take,
};
use control_channels::{Adjacency, CoreInput, Frame, FrameMaker, acknowledge, frame_floods_due};
use flood::{Body, Flood, body_of, decode_flood};
use hop_reliable::Heard;
use node_core::{Change, Input, Node};
use rsvp_messages::{ReadPacket, read};

// What the node answers, without its messages: they are prepared, and their frames stand at the end of the list.
fn prepared(
    maker: &mut FrameMaker,
    node: &Node,
    adjacencies: &mut [Adjacency],
    frames: &mut Vec<Frame>,
    input: &Input,
) -> Result<Change, OutOfMemory>
    requires ready { IsReady node.now.place adjacencies.old }
    requires input { IsWritableInput input.now }
    ensures change { IfOk result (λ c. c ≡ record (answer_to node.now input.now) { sent = [] }) }
    ensures hops { OnOk result
        (ArePrepared adjacencies.old (answer_to node.now input.now).sent adjacencies.new) }
    ensures rest { map rested adjacencies.new ≡ map rested adjacencies.old }
    ensures frames { OnOk result
        (AddsAnswer node.now adjacencies.old
        (answer_to node.now input.now) frames.old.items frames.new.items) }
    ensures spelled { OnOk result
        (AnswerIsSpelled node.now adjacencies.old (answer_to node.now input.now)) }
{
    let mut change = node.answer(maker.alloc, input)?;
    let sent = change.take_sent();
    prepare_all(maker, node.id(), adjacencies, frames, sent.into_vec())?;
    Ok(change)
}

fn carry_out(
    maker: &mut FrameMaker,
    node: &mut Node,
    adjacencies: &mut [Adjacency],
    frames: &mut Vec<Frame>,
    input: &Input,
) -> Result<(), OutOfMemory>
    requires ready { IsReady node.old.place adjacencies.old }
    requires input { IsWritableInput input.now }
    requires may { MayTake node.old input.now }
    ensures node { OnOk result (node.new ≡ stepped node.old input.now) }
    ensures same { OnErr result (node.new ≡ node.old) }
    ensures hops { OnOk result
        (ArePrepared adjacencies.old (answer_to node.old input.now).sent adjacencies.new) }
    ensures rest { map rested adjacencies.new ≡ map rested adjacencies.old }
    ensures frames { OnOk result
        (AddsAnswer node.old adjacencies.old
        (answer_to node.old input.now) frames.old.items frames.new.items) }
    ensures spelled { OnOk result
        (AnswerIsSpelled node.old adjacencies.old (answer_to node.old input.now)) }
{
    let change = prepared(maker, node, adjacencies, frames, input)?;
    node.carry_out_rest(change)
}

// Whether the input is a tick at a node that counts none: it changes nothing.
fn is_idle(node: &Node, input: &Input) -> bool
    ensures { IsTrue result → answer_to node.now input.now ≡ nothing }
{
    match input {
        Input::Tick => !node.counts_ticks(),
        Input::Message { .. } | Input::Desk(_) | Input::Learn(_) => false,
    }
}

// The node takes an input, and its messages are prepared. After want of memory none is.
fn give(
    maker: &mut FrameMaker,
    node: &mut Node,
    adjacencies: &mut [Adjacency],
    frames: &mut Vec<Frame>,
    input: &Input,
) -> Result<(), OutOfMemory>
    requires ready { IsReady node.old.place adjacencies.old }
    requires input { IsWritableInput input.now }
    requires may { MayTake node.old input.now }
    ensures node { OnOk result (node.new ≡ stepped node.old input.now) }
    ensures same { OnErr result (node.new ≡ node.old) }
    ensures hops { OnOk result
        (ArePrepared adjacencies.old (answer_to node.old input.now).sent adjacencies.new) }
    ensures rest { OnOk result (map rested adjacencies.new ≡ map rested adjacencies.old) }
    ensures err { OnErr result (adjacencies.new ≡ adjacencies.old) }
    ensures frames { OnOk result
        (AddsAnswer node.old adjacencies.old
        (answer_to node.old input.now) frames.old.items frames.new.items) }
    ensures spelled { OnOk result
        (AnswerIsSpelled node.old adjacencies.old (answer_to node.old input.now)) }
{
    if is_idle(node, input) {
        return Ok(());
    }
    match carry_out(maker, node, adjacencies, frames, input) {
        Ok(()) => Ok(()),
        Err(e) => {
            discard_all(adjacencies);
            Err(e)
        }
    }
}

// What is handed up of a packet: its message, where it is the next.
fn handed_up(heard: Heard, body: Option<Msg>) -> Option<Msg>
    ensures handed { option_to_list result ≡ handed_body heard body }
    ensures none { heard ≢ Heard.Next → result ≡ None }
    ensures passed { BodyCanBePassedOn body → BodyCanBePassedOn result }
{
    if heard == Heard::Next { body } else { None }
}

fn hand_up(
    maker: &mut FrameMaker,
    node: &mut Node,
    adjacencies: &mut [Adjacency],
    frames: &mut Vec<Frame>,
    from: NodeId,
    body: Option<Msg>,
) -> Result<(), OutOfMemory>
    requires ready { IsReady node.old.place adjacencies.old }
    requires body { BodyCanBePassedOn body }
    ensures place { node.new.place ≡ node.old.place }
    ensures node { OnOk result
        (node.new.state ≡ changed node.old.state (body_answer node.old from body)) }
    ensures same { OnErr result (node.new ≡ node.old) }
    ensures hops { OnOk result
        (ArePrepared adjacencies.old (body_answer node.old from body).sent adjacencies.new) }
    ensures rest { OnOk result (map rested adjacencies.new ≡ map rested adjacencies.old) }
    ensures err { OnErr result (adjacencies.new ≡ adjacencies.old) }
    ensures frames { OnOk result
        (AddsAnswer node.old adjacencies.old
        (body_answer node.old from body) frames.old.items frames.new.items) }
    ensures spelled { OnOk result
        (AnswerIsSpelled node.old adjacencies.old (body_answer node.old from body)) }
    ensures none { body ≡ None → adjacencies.new ≡ adjacencies.old }
{
    match body {
        None => Ok(()),
        Some(msg) => give(
            maker,
            node,
            adjacencies,
            frames,
            &Input::Message { from, msg },
        ),
    }
}

// Sends what is prepared after a packet: nothing, where its message isn't handed up.
fn commit_handed(adjacencies: &mut [Adjacency], heard: Heard)
    requires { heard ≢ Heard.Next → map rested adjacencies.old ≡ adjacencies.old }
    ensures { adjacencies.new ≡ map committed adjacencies.old }
{
    if heard == Heard::Next {
        commit_all(adjacencies);
    }
}

// A packet of a neighbour: its acknowledgement, then what the rule of its message sends.
fn take_packet(
    maker: &mut FrameMaker,
    node: &mut Node,
    adjacencies: &mut [Adjacency],
    frames: &mut Vec<Frame>,
    from: NodeId,
    packet: Packet,
) -> Result<(), OutOfMemory>
    requires ready { IsReady node.old.place adjacencies.old }
    requires reached { IsTrue (reaches adjacencies.old from.0) }
    requires body { BodyCanBePassedOn packet.body }
    ensures becomes { OnOk result
        (Becomes node.old node.new adjacencies.old adjacencies.new
        (packet_step node.old adjacencies.old from packet).after) }
    ensures same { OnErr result (node.new ≡ node.old) }
    ensures err { OnErr result (adjacencies.new ≡ adjacencies.old) }
    ensures frames { OnOk result
        (frames.new.items ≡ frames.old.items ++
        frames_to node.old.place.id (packet_step node.old adjacencies.old from packet).sendings) }
    ensures spelled { OnOk result
        (AllSpelled node.old.place.id (packet_step node.old adjacencies.old from packet).sendings) }
{
    let heard = hears(adjacencies, from, &packet);
    acknowledge(maker, node.id(), from, frames, heard, &packet)?;
    let (acks, body) = packet.into_parts();
    let body = handed_up(heard, body);
    hand_up(maker, node, adjacencies, frames, from, body)?;
    take(adjacencies, from, heard, acks.items());
    commit_handed(adjacencies, heard);
    Ok(())
}

// A packet of a neighbour, as it was read. An acknowledgement alone is taken by the hop, and nothing answers it.
fn take_read(
    maker: &mut FrameMaker,
    node: &mut Node,
    adjacencies: &mut [Adjacency],
    frames: &mut Vec<Frame>,
    from: NodeId,
    packet: ReadPacket,
) -> Result<(), OutOfMemory>
    requires ready { IsReady node.old.place adjacencies.old }
    requires reached { IsTrue (reaches adjacencies.old from.0) }
    requires body { BodyCanBePassedOn (packet_read packet).body }
    ensures becomes { OnOk result
        (Becomes node.old node.new adjacencies.old adjacencies.new
        (packet_step node.old adjacencies.old from (packet_read packet)).after) }
    ensures same { OnErr result (node.new ≡ node.old) }
    ensures err { OnErr result (adjacencies.new ≡ adjacencies.old) }
    ensures frames { OnOk result
        (frames.new.items ≡ frames.old.items ++ frames_to node.old.place.id
        (packet_step node.old adjacencies.old from (packet_read packet)).sendings) }
    ensures spelled { OnOk result (AllSpelled node.old.place.id
        (packet_step node.old adjacencies.old from (packet_read packet)).sendings) }
{
    match packet {
        ReadPacket::Ack(id) => {
            take(adjacencies, from, Heard::Acked, &[id]);
            Ok(())
        }
        ReadPacket::Whole(packet) => take_packet(maker, node, adjacencies, frames, from, packet),
    }
}

fn taken(
    maker: &mut FrameMaker,
    node: &mut Node,
    adjacencies: &mut [Adjacency],
    from: NodeId,
    packet: ReadPacket,
) -> Result<Vec<Frame>, OutOfMemory>
    requires ready { IsReady node.old.place adjacencies.old }
    requires from { IsTrue (is_neighbour node.old.place from) }
    requires body { BodyCanBePassedOn (packet_read packet).body }
    ensures made { IfOk result
        (λ fs. IsMade node.old node.new adjacencies.old adjacencies.new
        (packet_step node.old adjacencies.old from (packet_read packet)) fs.items) }
    ensures place { node.new.place ≡ node.old.place }
    ensures kept { (k : ℕ) → IsKeptAfter node.old.place adjacencies.old k →
        OnOk result (IsKeptAfter node.new.place adjacencies.new (k + 1)) }
    ensures learnt { OnOk result (node.new.state.learnt ≡ node.old.state.learnt) }
    ensures near { IfOk result (λ fs. AllFramesToNeighbours node.old.place fs.items) }
    ensures few { IfOk result (λ fs. length fs.items ≤ 2 ^ 40) }
    ensures same { OnErr result (node.new ≡ node.old) }
    ensures err { OnErr result (adjacencies.new ≡ adjacencies.old) }
{
    node.fits();
    let mut frames = maker.list();
    take_read(maker, node, adjacencies, &mut frames, from, packet)?;
    Ok(frames)
}

// A frame of a neighbour, of which the bytes tell what it bears. One that spells nothing changes nothing.
fn take_frame(
    maker: &mut FrameMaker,
    node: &mut Node,
    adjacencies: &mut [Adjacency],
    flood: &mut Flood,
    from: NodeId,
    bytes: &[u8],
) -> Result<Vec<Frame>, OutOfMemory>
    requires ready { IsReady node.old.place adjacencies.old }
    requires fits { FloodFits node.old.place node.old.state flood.old }
    requires from { IsTrue (is_neighbour node.old.place from) }
    ensures content { (c : Content) → IsFrame bytes.now c →
        IfOk result (λ fs. AreMade (parts node.old adjacencies.old flood.old)
        (parts node.new adjacencies.new flood.new)
        (frame_step node.old adjacencies.old flood.old from c)
        (flood_after flood.old from c) fs.items) }
    ensures noise { SpellsNothing bytes.now →
        IfOk result (λ fs. AreMade (parts node.old adjacencies.old flood.old)
        (parts node.new adjacencies.new flood.new)
        (idle_step node.old adjacencies.old) flood.old fs.items) }
    ensures one { OnOk result (HasOneMeaning (IsFrame bytes.now)) }
    ensures place { node.new.place ≡ node.old.place }
    ensures kept { (k : ℕ) → IsKeptAfter node.old.place adjacencies.old k →
        OnOk result (IsKeptAfter node.new.place adjacencies.new (k + 1)) }
    ensures fits { OnOk result (FloodFits node.new.place node.new.state flood.new) }
    ensures near { IfOk result (λ fs. AllFramesToNeighbours node.old.place fs.items) }
    ensures few { IfOk result (λ fs. length fs.items ≤ 2 ^ 40) }
    ensures same { OnErr result (node.new ≡ node.old) }
    ensures err { OnErr result (adjacencies.new ≡ adjacencies.old) }
    ensures err_flood { OnErr result (flood.new ≡ flood.old) }
{
    match body_of(bytes) {
        None => Ok(maker.list()),
        Some(Body::Message(body)) => match read(maker.alloc, body) {
            Ok(packet) => taken(maker, node, adjacencies, from, packet),
            Err(DecodeError::NotMessage) => Ok(maker.list()),
            Err(DecodeError::OutOfMemory) => Err(OutOfMemory),
        },
        Some(Body::Flood(body)) => match decode_flood(maker.alloc, body) {
            Ok(m) => take_flood(maker, node, flood, from, &m),
            Err(DecodeError::NotMessage) => Ok(maker.list()),
            Err(DecodeError::OutOfMemory) => Err(OutOfMemory),
        },
    }
}

// The node takes an item of the desk, and its messages are prepared. After want of memory none is.
fn give_item(
    maker: &mut FrameMaker,
    node: &mut Node,
    adjacencies: &mut [Adjacency],
    frames: &mut Vec<Frame>,
    item: &DeskItem,
) -> Result<(), OutOfMemory>
    requires { IsReady node.old.place adjacencies.old }
    ensures node { OnOk result (node.new ≡ stepped node.old (inputs.Desk item.now)) }
    ensures same { OnErr result (node.new ≡ node.old) }
    ensures hops { OnOk result
        (ArePrepared adjacencies.old (answer_to node.old (inputs.Desk item.now)).sent
        adjacencies.new) }
    ensures rest { OnOk result (map rested adjacencies.new ≡ map rested adjacencies.old) }
    ensures err { OnErr result (adjacencies.new ≡ adjacencies.old) }
    ensures frames { OnOk result
        (AddsAnswer node.old adjacencies.old
        (answer_to node.old (inputs.Desk item.now)) frames.old.items frames.new.items) }
    ensures spelled { OnOk result
        (AnswerIsSpelled node.old adjacencies.old (answer_to node.old (inputs.Desk item.now))) }
{
    let item = item.copy(maker.alloc)?;
    give(maker, node, adjacencies, frames, &Input::Desk(item))
}

fn handle(
    maker: &mut FrameMaker,
    node: &mut Node,
    adjacencies: &mut [Adjacency],
    item: &DeskItem,
) -> Result<Vec<Frame>, OutOfMemory>
    requires ready { IsReady node.old.place adjacencies.old }
    ensures made { IfOk result
        (λ fs. IsMade node.old node.new adjacencies.old adjacencies.new
        (item_step node.old adjacencies.old item.now) fs.items) }
    ensures place { node.new.place ≡ node.old.place }
    ensures kept { (k : ℕ) → IsKeptAfter node.old.place adjacencies.old k →
        OnOk result (IsKeptAfter node.new.place adjacencies.new (k + 1)) }
    ensures learnt { OnOk result (node.new.state.learnt ≡ node.old.state.learnt) }
    ensures near { IfOk result (λ fs. AllFramesToNeighbours node.old.place fs.items) }
    ensures few { IfOk result (λ fs. length fs.items ≤ 2 ^ 40) }
    ensures same { OnErr result (node.new ≡ node.old) }
    ensures err { OnErr result (adjacencies.new ≡ adjacencies.old) }
{
    node.fits();
    let mut frames = maker.list();
    give_item(maker, node, adjacencies, &mut frames, item)?;
    commit_all(adjacencies);
    Ok(frames)
}

// Messages go again, then rows, then what the rule of a tick sends. At rest nothing does, and nothing changes.
fn tick(
    maker: &mut FrameMaker,
    node: &mut Node,
    adjacencies: &mut [Adjacency],
    flood: &mut Flood,
) -> Result<Vec<Frame>, OutOfMemory>
    requires ready { IsReady node.old.place adjacencies.old }
    requires fits { FloodFits node.old.place node.old.state flood.old }
    ensures made { IfOk result
        (λ fs. IsMade node.old node.new adjacencies.old adjacencies.new
        (tick_step node.old adjacencies.old flood.old) fs.items) }
    ensures flood { OnOk result (flood.new ≡ ticked_flood flood.old) }
    ensures place { node.new.place ≡ node.old.place }
    ensures kept { (k : ℕ) → IsKeptAfter node.old.place adjacencies.old k →
        OnOk result (IsKeptAfter node.new.place adjacencies.new (k + 1)) }
    ensures fits { OnOk result (FloodFits node.new.place node.new.state flood.new) }
    ensures near { IfOk result (λ fs. AllFramesToNeighbours node.old.place fs.items) }
    ensures few { IfOk result (λ fs. length fs.items ≤ 2 ^ 40) }
    ensures same { OnErr result (node.new ≡ node.old) }
    ensures err { OnErr result (adjacencies.new ≡ adjacencies.old) }
    ensures err_flood { OnErr result (flood.new ≡ flood.old) }
{
    node.fits();
    flood.counts();
    let mut frames = maker.list();
    if is_at_rest(node, adjacencies, flood) {
        return Ok(frames);
    }
    let me = node.id();
    frame_due(maker, me, adjacencies, &mut frames)?;
    frame_floods_due(maker, me, flood, &mut frames)?;
    give(maker, node, adjacencies, &mut frames, &Input::Tick)?;
    age_all(adjacencies);
    commit_all(adjacencies);
    flood.age();
    Ok(frames)
}

/// What an input does, and the frames that go out. After want of memory the node, its hops and its flood are unchanged.
pub(crate) fn react(
    maker: &mut FrameMaker,
    node: &mut Node,
    adjacencies: &mut [Adjacency],
    flood: &mut Flood,
    input: &CoreInput,
) -> Result<Vec<Frame>, OutOfMemory>
    requires ready { IsReady node.old.place adjacencies.old }
    requires fits { FloodFits node.old.place node.old.state flood.old }
    requires from { IsFromNeighbour node.old.place input.now }
    ensures reaction { IfOk result
        (λ fs. IsReaction (parts node.old adjacencies.old flood.old)
        (parts node.new adjacencies.new flood.new) input.now fs.items) }
    ensures one { OnOk result (IsUnambiguous input.now) }
    ensures place { node.new.place ≡ node.old.place }
    ensures kept { (k : ℕ) → IsKeptAfter node.old.place adjacencies.old k →
        OnOk result (IsKeptAfter node.new.place adjacencies.new (k + 1)) }
    ensures fits { OnOk result (FloodFits node.new.place node.new.state flood.new) }
    ensures near { IfOk result (λ fs. AllFramesToNeighbours node.old.place fs.items) }
    ensures few { IfOk result (λ fs. length fs.items ≤ 2 ^ 40) }
    ensures same { OnErr result (node.new ≡ node.old) }
    ensures err { OnErr result (adjacencies.new ≡ adjacencies.old) }
    ensures err_flood { OnErr result (flood.new ≡ flood.old) }
{
    match input {
        CoreInput::Frame { from, bytes } => {
            take_frame(maker, node, adjacencies, flood, *from, bytes.items())
        }
        CoreInput::Tick => tick(maker, node, adjacencies, flood),
        CoreInput::Desk(item) => handle(maker, node, adjacencies, item),
    }
}

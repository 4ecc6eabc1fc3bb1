//! What a controller floods: the rows of its own links, and those that it learns.

ghost use Rattle.std.specs.Prelude.{◌≡◌, ◌≤◌, ◌^◌, ◌∷◌, ◌++◌, ℕ, [], IfOk, IfSome, IsTrue, List, OnErr, OnOk, None, Some, length};
ghost use Rattle.flood.specs.{declared.messages.FloodMsg.FloodMsg, Messages.SpellsFlood, State.{learnt_of, flood_received, sends_after}};
ghost use Rattle.mesh_nodes.specs.{Learnt.MayLearn, LocalNodes.is_neighbour, Nodes.{MayTake, stepped}};
ghost use Rattle.mesh_rules.specs.KnownRows.{known_rows};
ghost use Rattle.mesh_nodes.specs.declared.inputs.Input.TheVariants as inputs;
ghost use Rattle.control_channels.specs.{Controllers.{floods_to, with_learnt}, Frames.{AllSpelled, frames_to}, ReadyControllers.{AllFramesToNeighbours, FloodFits}};

use ason_base::{Copied, NodeId, OutOfMemory, TeRow};
use control_channels::{Frame, FrameMaker, NewRow, frame_first_sendings};
use flood::{ContentRef, Flood, FloodMsg, FloodRef};
use node_core::{Input, Node};
use std::alloc::Global;

// The node learns the row. Nothing is sent then.
fn learn_row(alloc: Global, node: &mut Node, row: TeRow) -> Result<(), OutOfMemory>
    requires { MayTake node.old (inputs.Learn row) }
    ensures ok { OnOk result (node.new ≡ stepped node.old (inputs.Learn row)) }
    ensures err { OnErr result (node.new ≡ node.old) }
{
    node.step(alloc, &Input::Learn(row))?;
    Ok(())
}

// The node learns the row, and the flood takes the message that brought it. After want of memory neither has.
fn learn(
    maker: &mut FrameMaker,
    node: &mut Node,
    flood: &mut Flood,
    from: NodeId,
    m: &FloodMsg,
    row: TeRow,
) -> Result<(), OutOfMemory>
    requires may { MayLearn node.old.place node.old.state row }
    requires new { learnt_of flood.old m.now ≡ Some row }
    requires rows { flood.old.rows ≡ known_rows node.old.place node.old.state }
    ensures place { node.new.place ≡ node.old.place }
    ensures node { OnOk result
        (node.new.state ≡ with_learnt node.old.place node.old.state (Some row)) }
    ensures same { OnErr result (node.new ≡ node.old) }
    ensures flood { OnOk result (flood.new ≡ flood_received flood.old from m.now) }
    ensures err { OnErr result (flood.new ≡ flood.old) }
{
    node.fits();
    learn_row(maker.alloc, node, row)?;
    match flood.take(maker.alloc, from, m) {
        Ok(()) => Ok(()),
        Err(error) => {
            node.forget();
            Err(error)
        }
    }
}

// The flood takes the message, and the node learns the row that is new, if there is one.
fn take(
    maker: &mut FrameMaker,
    node: &mut Node,
    flood: &mut Flood,
    from: NodeId,
    m: &FloodMsg,
    learnt: Option<TeRow>,
) -> Result<(), OutOfMemory>
    requires fits { FloodFits node.old.place node.old.state flood.old }
    requires spelled { (bytes : List ℕ) × SpellsFlood bytes m.now }
    requires learnt { learnt ≡ learnt_of flood.old m.now }
    ensures place { node.new.place ≡ node.old.place }
    ensures node { OnOk result (node.new.state ≡ with_learnt node.old.place node.old.state learnt) }
    ensures same { OnErr result (node.new ≡ node.old) }
    ensures flood { OnOk result (flood.new ≡ flood_received flood.old from m.now) }
    ensures err { OnErr result (flood.new ≡ flood.old) }
{
    match learnt {
        None => flood.take(maker.alloc, from, m),
        Some(row) => learn(maker, node, flood, from, m, row),
    }
}

// The number of a row whose link is known, if the message brings one.
fn known_row(flood: &Flood, m: &FloodMsg) -> Option<u32>
    ensures learnt { IfSome result (λ number. learnt_of flood.now m.now ≡ None) }
    ensures sends { IfSome result (λ number. (from : NodeId) →
        sends_after flood.now from m.now ≡ (from, FloodMsg.Ack number) ∷ []) }
    ensures same { IfSome result (λ number. (from : NodeId) →
        flood_received flood.now from m.now ≡ flood.now) }
{
    match m {
        FloodMsg::Row { number, row, .. } if flood.known(row.link) => Some(*number),
        _ => None,
    }
}

// The frame of a row's acknowledgement goes to the end of the list.
fn frame_ack(
    maker: &mut FrameMaker,
    me: NodeId,
    to: NodeId,
    number: u32,
    frames: &mut Vec<Frame>,
) -> Result<(), OutOfMemory>
    ensures frames { OnOk result (frames.new.items ≡ frames.old.items ++
        frames_to me (floods_to ((to, FloodMsg.Ack number) ∷ []))) }
    ensures spelled { OnOk result
        (AllSpelled me (floods_to ((to, FloodMsg.Ack number) ∷ []))) }
{
    let frame = maker.frame(me, to, &ContentRef::flood(FloodRef::ack(number)))?;
    frames.push(frame)?;
    Ok(())
}

// What a flood message comes to. The frames of its acknowledgement and, where the row is new, of the row to the other
// neighbours go to the end of the list; the row that is new is handed back.
fn answer(
    maker: &mut FrameMaker,
    me: NodeId,
    flood: &Flood,
    from: NodeId,
    m: &FloodMsg,
    frames: &mut Vec<Frame>,
) -> Result<Option<TeRow>, OutOfMemory>
    requires { (bytes : List ℕ) × SpellsFlood bytes m.now }
    ensures learnt { IfOk result (λ learnt. learnt ≡ learnt_of flood.now m.now) }
    ensures frames { OnOk result (frames.new.items ≡ frames.old.items ++
        frames_to me (floods_to (sends_after flood.now from m.now))) }
    ensures spelled { OnOk result (AllSpelled me (floods_to (sends_after flood.now from m.now))) }
{
    let FloodMsg::Row {
        number,
        origin,
        row,
    } = m
    else {
        return Ok(None);
    };
    frame_ack(maker, me, from, *number, frames)?;
    if !flood.is_new(row) {
        return Ok(None);
    }
    let origin = *origin;
    frame_first_sendings(maker, me, flood, NewRow { from, origin, row }, frames)?;
    let learnt = row.copy(maker.alloc)?;
    Ok(Some(learnt))
}

/// A flood message of a neighbour: its acknowledgement, then the row, where it is new, to the other neighbours. Most
/// rows are known: then nothing else goes out, and nothing changes.
pub(crate) fn take_flood(
    maker: &mut FrameMaker,
    node: &mut Node,
    flood: &mut Flood,
    from: NodeId,
    m: &FloodMsg,
) -> Result<Vec<Frame>, OutOfMemory>
    requires fits { FloodFits node.old.place node.old.state flood.old }
    requires from { IsTrue (is_neighbour node.old.place from) }
    requires spelled { (bytes : List ℕ) × SpellsFlood bytes m.now }
    ensures place { node.new.place ≡ node.old.place }
    ensures node { OnOk result (node.new.state ≡ with_learnt node.old.place node.old.state
        (learnt_of flood.old m.now)) }
    ensures same { OnErr result (node.new ≡ node.old) }
    ensures flood { OnOk result (flood.new ≡ flood_received flood.old from m.now) }
    ensures err { OnErr result (flood.new ≡ flood.old) }
    ensures fits { OnOk result (FloodFits node.new.place node.new.state flood.new) }
    ensures frames { IfOk result
        (λ fs. fs.items ≡ frames_to node.old.place.id (floods_to (sends_after flood.old from m.now))) }
    ensures spelled { IfOk result (λ fs. AllSpelled node.old.place.id
        (floods_to (sends_after flood.old from m.now))) }
    ensures near { IfOk result (λ fs. AllFramesToNeighbours node.old.place fs.items) }
    ensures few { IfOk result (λ fs. length fs.items ≤ 2 ^ 40) }
{
    flood.counts();
    let me = node.id();
    let mut frames = maker.list();
    if let Some(number) = known_row(flood, m) {
        frame_ack(maker, me, from, number, &mut frames)?;
        return Ok(frames);
    }
    let learnt = answer(maker, me, flood, from, m, &mut frames)?;
    take(maker, node, flood, from, m, learnt)?;
    Ok(frames)
}

//! What a node floods: the rows of its own links, and those that are due.

ghost use Rattle.std.specs.{Prelude.{◌≡◌, ◌<◌, ◌+◌, ◌^◌, ◌++◌, ◌∷◌, [], IfOk, IsTrue, OnOk, Some, map}, List.AllByRecursion};
ghost use Rattle.ason_base.specs.Network.{row_of};
ghost use Rattle.flood.specs.{NetworkLaws.AreRowsOfLinks, Networks.{begun_node, new_flood, nodes_beside}, State.{age_after_tick, due_to, first_sending, first_sendings, goes_at, is_from, sent_at_tick, rows_sent_to}};
ghost use Rattle.te_tlv.specs.Written.{IsRowWritable};
ghost use Rattle.mesh_rules.specs.{LocalNodes.local_node, State.new_node};
ghost use Rattle.control_channels.specs.{Controllers.floods_to, Frames.{AllSpelled, frames_to}, ReadyControllers.{CanGo, FloodFits}};

use crate::frames::{Frame, FrameMaker};
use crate::peers::{other_ends, touches};
use ason_base::{LinkSpec, NodeId, OutOfMemory, TeRow, Topology};
use flood::laws::every_start;
use flood::{ContentRef, Due, Flood, FloodNeighbour, FloodRef};
use std::alloc::Global;

// Declares the rows of those of these links that the node is an end of, in order of link.
fn declare_own(
    alloc: Global,
    links: &[LinkSpec],
    n: NodeId,
    flood: &mut Flood,
) -> Result<(), OutOfMemory>
    requires links { AreRowsOfLinks (map row_of links.now) }
    requires new { flood.old ≡ new_flood n (nodes_beside (map row_of links.now) n) }
    ensures { OnOk result (flood.new ≡ begun_node (map row_of links.now) n) }
{
    every_start();
    for link in links {
        if touches(n, link) {
            let row = TeRow::of(alloc, link)?;
            flood.declare(alloc, row)?;
        }
    }
    Ok(())
}

/// What node `n` floods at the start: the rows of its own links are due to each neighbour.
pub fn begun(alloc: Global, t: &Topology, n: NodeId) -> Result<Flood, OutOfMemory>
    ensures flood { IfOk result (λ f. f ≡ begun_node (map row_of t.now.links) n) }
    ensures fits { IfOk result (FloodFits (local_node t.now n) new_node) }
{
    every_start();
    let links = t.links();
    let neighbours = other_ends(alloc, links, n)?;
    let mut flood = Flood::new(alloc, n, &neighbours)?;
    declare_own(alloc, links, n, &mut flood)?;
    Ok(flood)
}

/// A row that is new to a node, the neighbour that it came from and the node that gave it first.
#[derive(Clone, Copy, Drop)]
pub struct NewRow<'a> {
    pub from: NodeId,
    pub origin: NodeId,
    pub row: &'a TeRow,
}

fn is_from(neighbour: &FloodNeighbour, from: NodeId) -> bool
    ensures { result ≡ is_from (Some from) neighbour.now }
{
    neighbour.id().0 == from.0
}

// The frame of the row as it goes out first to a neighbour goes to the end of the list.
fn frame_first(
    maker: &mut FrameMaker,
    me: NodeId,
    neighbour: &FloodNeighbour,
    new: NewRow<'_>,
    frames: &mut Vec<Frame>,
) -> Result<(), OutOfMemory>
    requires left { neighbour.now.sent + 1 < 2 ^ 32 }
    requires can { IsRowWritable new.origin new.row.now }
    ensures frames { OnOk result (frames.new.items ≡ frames.old.items ++ frames_to me
        (floods_to (first_sending new.entry.origin new.entry.row.now neighbour.now ∷ []))) }
    ensures spelled { OnOk result (AllSpelled me
        (floods_to (first_sending new.entry.origin new.entry.row.now neighbour.now ∷ []))) }
{
    let row = FloodRef::row(neighbour.next_number(), new.origin, new.row);
    let frame = maker.frame(me, neighbour.id(), &ContentRef::flood(row))?;
    frames.push(frame)?;
    Ok(())
}

/// The frames of a new row as it goes out first, to each neighbour but the one that it came from, go to the end of the list.
pub fn frame_first_sendings(
    maker: &mut FrameMaker,
    me: NodeId,
    flood: &Flood,
    new: NewRow<'_>,
    frames: &mut Vec<Frame>,
) -> Result<(), OutOfMemory>
    requires { IsRowWritable new.origin new.row.now }
    ensures frames { OnOk result (frames.new.items ≡ frames.old.items ++ frames_to me
        (floods_to (first_sendings new.entry.from new.entry.origin new.entry.row.now
        flood.now.neighbours))) }
    ensures spelled { OnOk result (AllSpelled me
        (floods_to (first_sendings new.entry.from new.entry.origin new.entry.row.now
        flood.now.neighbours))) }
{
    flood.counts();
    let neighbours = flood.neighbours();
    for neighbour in neighbours {
        if !is_from(neighbour, new.from) {
            frame_first(maker, me, neighbour, new, frames)?;
        }
    }
    Ok(())
}

// The frame of a row that the next tick sends goes to the end of the list.
fn frame_row(
    maker: &mut FrameMaker,
    me: NodeId,
    to: NodeId,
    due: &Due,
    frames: &mut Vec<Frame>,
) -> Result<(), OutOfMemory>
    requires can { CanGo due.now }
    requires due { IsTrue (goes_at (age_after_tick due.now.age)) }
    ensures frames { OnOk result (frames.new.items ≡ frames.old.items ++ frames_to me
        (floods_to (due_to to (due.now ∷ [])))) }
    ensures spelled { OnOk result (AllSpelled me (floods_to (due_to to (due.now ∷ [])))) }
{
    let row = FloodRef::row(due.number, due.origin, &due.row);
    let frame = maker.frame(me, to, &ContentRef::flood(row))?;
    frames.push(frame)?;
    Ok(())
}

// The frames of those of these rows that the next tick sends go to the end of the list.
fn frame_rows(
    maker: &mut FrameMaker,
    me: NodeId,
    to: NodeId,
    due: &[Due],
    frames: &mut Vec<Frame>,
) -> Result<(), OutOfMemory>
    requires { AllByRecursion CanGo due.now }
    ensures frames { OnOk result (frames.new.items ≡ frames.old.items ++ frames_to me
        (floods_to (due_to to due.now))) }
    ensures spelled { OnOk result (AllSpelled me (floods_to (due_to to due.now))) }
{
    for row in due {
        if row.goes_next() {
            frame_row(maker, me, to, row, frames)?;
        }
    }
    Ok(())
}

// The frames of the rows that the next tick sends to a neighbour go to the end of the list.
fn frame_rows_to(
    maker: &mut FrameMaker,
    me: NodeId,
    neighbour: &FloodNeighbour,
    frames: &mut Vec<Frame>,
) -> Result<(), OutOfMemory>
    requires { AllByRecursion CanGo neighbour.now.due }
    ensures frames { OnOk result (frames.new.items ≡ frames.old.items ++ frames_to me
        (floods_to (rows_sent_to neighbour.now))) }
    ensures spelled { OnOk result (AllSpelled me (floods_to (rows_sent_to neighbour.now))) }
{
    let (first, others) = neighbour.due();
    frame_rows(maker, me, neighbour.id(), first, frames)?;
    frame_rows(maker, me, neighbour.id(), others, frames)
}

/// The frames of the rows that the next tick sends go to the end of the list, by neighbour and then by number.
pub fn frame_floods_due(
    maker: &mut FrameMaker,
    me: NodeId,
    flood: &Flood,
    frames: &mut Vec<Frame>,
) -> Result<(), OutOfMemory>
    requires { AllByRecursion (λ n. AllByRecursion CanGo n.due) flood.now.neighbours }
    ensures frames { OnOk result
        (frames.new.items ≡ frames.old.items ++ frames_to me (floods_to (sent_at_tick flood.now))) }
    ensures spelled { OnOk result (AllSpelled me (floods_to (sent_at_tick flood.now))) }
{
    let neighbours = flood.neighbours();
    for neighbour in neighbours {
        if !neighbour.has_all() {
            frame_rows_to(maker, me, neighbour, frames)?;
        }
    }
    Ok(())
}

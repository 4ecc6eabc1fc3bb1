//! The lines of the frames that were taken.

ghost use Rattle.std.specs.Prelude.{◌≡◌, ◌++◌, IfOk, OnOk, flat_map, string_bytes};
ghost use Rattle.trace_frames.specs.Told.{delivery_text, frame_line, frame_text};

use ason_base::{Event, NodeId, OutOfMemory};
use plan_reader::Plan;
use std::alloc::Global;
use table_text::node_name;
use wire_buf::push_hex;
use world_core::World;

// `NODE FROM NUMBER ` with the names of the nodes.
fn delivery_text(
    alloc: Global,
    plan: &Plan,
    to: NodeId,
    from: NodeId,
    number: u64,
) -> Result<String, OutOfMemory>
    ensures { IfOk result (λ text. string_bytes text ≡ delivery_text plan.now to from number) }
{
    let (to, from) = (node_name(plan, to), node_name(plan, from));
    let mut text = String::new(alloc);
    write!(text, "{to} {from} {number} ")?;
    Ok(text)
}

// Appends the bytes of the frame of this number, and ends the line.
fn push_frame(
    alloc: Global,
    text: &mut Vec<u8>,
    world: &World,
    to: NodeId,
    from: NodeId,
    number: u64,
) -> Result<(), OutOfMemory>
    ensures { OnOk result (text.new.items ≡ text.old.items ++ frame_text world.now to from number) }
{
    if let Some(bytes) = world.frame(alloc, from, to, number)? {
        push_hex(text, bytes.items())?;
    }
    text.push(b'\n')?;
    Ok(())
}

fn push_event(
    alloc: Global,
    text: &mut Vec<u8>,
    plan: &Plan,
    world: &World,
    event: &Event,
) -> Result<(), OutOfMemory>
    ensures { OnOk result
        (text.new.items ≡ text.old.items ++ frame_line plan.now world.now event.now) }
{
    if let Event::Deliver { to, from, number } = event {
        let head = delivery_text(alloc, plan, *to, *from, *number)?;
        text.extend_from_slice(head.as_bytes())?;
        push_frame(alloc, text, world, *to, *from, *number)?;
    }
    Ok(())
}

/// The line of each delivery, in order, with the frames that the world has.
pub fn frames_text(
    alloc: Global,
    plan: &Plan,
    world: &World,
    events: &[Event],
) -> Result<Vec<u8>, OutOfMemory>
    ensures { IfOk result (λ text.
        text.items ≡ flat_map (frame_line plan.now world.now) events.now) }
{
    let mut text = Vec::new(alloc);
    for event in events {
        push_event(alloc, &mut text, plan, world, event)?;
    }
    Ok(text)
}

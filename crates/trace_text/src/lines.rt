//! The line of an entry.

ghost use Rattle.std.specs.Prelude.{◌<◌, ◌^◌, All, OnOk};
ghost use Rattle.ason_base.specs.Texts.{Appends};
ghost use Rattle.world_merge.specs.Lines.{lent_line};
ghost use Rattle.wire_buf.specs.Hex.{byte_text, hex_text};
ghost use Rattle.trace_text.specs.{EntryLines.{bytes_text, entry_line, entry_place, event_text}, Widths.{EntryFits, EventFits}};

use crate::commands::push_command;
use ason_base::{EntryRef, Event, NodeId, OutOfMemory};
use plan_reader::Plan;
use table_text::node_name;

/// Appends the line of an entry.
pub fn push_entry<'a>(
    text: &mut String,
    plan: &Plan,
    entry: EntryRef<'a>,
) -> Result<(), OutOfMemory>
    ensures text { OnOk result (Appends text.old text.new
        (entry_line plan.now (lent_line entry.entry))) }
    ensures fits { OnOk result (EntryFits (lent_line entry.entry)) }
{
    push_place(text, plan, entry.stamp, entry.node)?;
    push_event(text, plan, entry.event)?;
    text.push_str("\n")?;
    Ok(())
}

// The stamp and the node, each with a space behind it.
fn push_place(
    text: &mut String,
    plan: &Plan,
    stamp: u64,
    node: Option<NodeId>,
) -> Result<(), OutOfMemory>
    ensures text { OnOk result (Appends text.old text.new (entry_place plan.now stamp node)) }
    ensures fits { stamp < 2 ^ 64 }
{
    let name = match node {
        None => "-",
        Some(node) => node_name(plan, node),
    };
    write!(text, "{stamp} {name} ")?;
    Ok(())
}

fn push_event(text: &mut String, plan: &Plan, event: &Event) -> Result<(), OutOfMemory>
    ensures text { OnOk result (Appends text.old text.new (event_text plan.now event.now)) }
    ensures fits { OnOk result (EventFits event.now) }
{
    match event {
        Event::Deliver { from, number, .. } => {
            let from = node_name(plan, *from);
            let number = *number;
            write!(text, "deliver {from} {number}")?;
            Ok(())
        }
        Event::Noise { from, bytes, .. } => {
            let from = node_name(plan, *from);
            write!(text, "noise {from} ")?;
            push_bytes(text, bytes.items())
        }
        Event::Tick { .. } => {
            text.push_str("tick")?;
            Ok(())
        }
        Event::Desk { .. } => {
            text.push_str("desk")?;
            Ok(())
        }
        Event::Post { command } => {
            text.push_str("post ")?;
            push_command(text, plan, command.value())
        }
    }
}

// The bytes in hexadecimal, or a dash where there are none.
fn push_bytes(text: &mut String, bytes: &[u8]) -> Result<(), OutOfMemory>
    ensures text { OnOk result (Appends text.old text.new (bytes_text bytes.now)) }
    ensures fits { OnOk result (All (λ b. b < 256) bytes.now) }
{
    match bytes {
        [] => {
            text.push_str("-")?;
            Ok(())
        }
        _ => push_hex(text, bytes),
    }
}

fn push_hex(text: &mut String, bytes: &[u8]) -> Result<(), OutOfMemory>
    ensures text { OnOk result (Appends text.old text.new (hex_text bytes.now)) }
    ensures fits { OnOk result (All (λ b. b < 256) bytes.now) }
{
    for byte in bytes {
        push_byte(text, *byte)?;
    }
    Ok(())
}

fn push_byte(text: &mut String, byte: u8) -> Result<(), OutOfMemory>
    ensures text { OnOk result (Appends text.old text.new (byte_text byte)) }
    ensures fits { byte < 256 }
{
    write!(text, "{byte:02X}")?;
    Ok(())
}

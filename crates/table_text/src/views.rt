//! The view of one node of a plan, as text.

ghost use Rattle.std.specs.Prelude.{◌≡◌, IfOk, string_bytes};
ghost use Rattle.table_text.specs.{EndsText.no_node_text, ViewText.{view_head, view_text}};

use crate::ends::no_node_text;
use crate::table::{node_name, push_legs};
use ason_base::{LegRow, NodeId, OutOfMemory};
use plan_reader::Plan;
use std::alloc::Global;

/// A line of the node and of how many entries its log had, then a line for each of its legs.
pub fn view_text(
    alloc: Global,
    plan: &Plan,
    node: NodeId,
    entries: u64,
    legs: &[LegRow],
) -> Result<Vec<u8>, OutOfMemory>
    ensures { IfOk result (λ text. text.items ≡ view_text plan.now node entries legs.now) }
{
    let mut told = head(alloc, plan, node, entries)?;
    push_legs(&mut told, plan, legs)?;
    Ok(told.into_bytes())
}

fn head(alloc: Global, plan: &Plan, node: NodeId, entries: u64) -> Result<String, OutOfMemory>
    ensures { IfOk result (λ text. string_bytes text ≡ view_head plan.now node entries) }
{
    let name = node_name(plan, node);
    let text = format!(in alloc; "view {name} entries {entries}\n")?;
    Ok(text)
}

/// What is told where the plan has no node of this name.
pub fn unknown_text(alloc: Global, name: &str) -> Result<Vec<u8>, OutOfMemory>
    ensures { IfOk result (λ text. text.items ≡ no_node_text name.now) }
{
    let told = no_node_text(alloc, name)?;
    Ok(told.into_bytes())
}

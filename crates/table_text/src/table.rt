//! The table of calls and legs, as text.

ghost use Rattle.std.specs.{Prelude.{◌≡◌, ◌==◌, ◌++◌, IfOk, OnErr, OnOk, codes, position, string_bytes}, Fmt.decimal, List.flat_map};
ghost use Rattle.table_text.specs.TableText.{back_label_text, back_text, call_name, call_text, cause_text, code_name, call_lsps, table_head_text, label_or_dash, label_text, leg_labels, leg_place, leg_standing, leg_text, lsp_or_dash, lsp_text, name_at, named_or_decimal, node_name, phase_word, role_word, state_word, stopped_text, table_text, unsettled_text};
ghost use Rattle.ason_base.specs.Texts.{Appends};

use crate::words::{code_name, phase_word, role_word, state_word};
use ason_base::{
    CallNo, CallRow, Cause, ErrCode, Label, LegRow, LinkId, Lsp, NodeId, OutOfMemory, TableRows,
};
use itoa::Buffer;
use plan_reader::{Name, Plan};
use std::alloc::Global;

/// Appends the table: a line of both counts, then a line for each call and each leg. After want of memory nothing is appended.
pub fn write_table(
    alloc: Global,
    out: &mut Vec<u8>,
    plan: &Plan,
    rows: &TableRows,
) -> Result<(), OutOfMemory>
    ensures ok { OnOk result (out.new.items ≡ out.old.items ++ table_text plan.now rows.now) }
    ensures err { OnErr result (out.new.items ≡ out.old.items) }
{
    let text = table_text(alloc, plan, rows)?;
    out.extend_from_slice(text.as_bytes())?;
    Ok(())
}

/// Appends the line of what is unsettled: desk items, unacknowledged messages, unacknowledged floods. After want of memory nothing is appended.
pub fn write_unsettled(
    alloc: Global,
    out: &mut Vec<u8>,
    desk: usize,
    hop: usize,
    flood: usize,
) -> Result<(), OutOfMemory>
    ensures ok { OnOk result (out.new.items ≡ out.old.items ++ unsettled_text desk hop flood) }
    ensures err { OnErr result (out.new.items ≡ out.old.items) }
{
    let text = unsettled_text(alloc, desk, hop, flood)?;
    out.extend_from_slice(text.as_bytes())?;
    Ok(())
}

/// Appends the line of a run that is stopped at a node's limit. After want of memory nothing is appended.
pub fn write_stopped(
    alloc: Global,
    out: &mut Vec<u8>,
    plan: &Plan,
    node: NodeId,
) -> Result<(), OutOfMemory>
    ensures ok { OnOk result (out.new.items ≡ out.old.items ++ stopped_text plan.now node) }
    ensures err { OnErr result (out.new.items ≡ out.old.items) }
{
    let text = stopped_text(alloc, plan, node)?;
    out.extend_from_slice(text.as_bytes())?;
    Ok(())
}

fn stopped_text(alloc: Global, plan: &Plan, node: NodeId) -> Result<String, OutOfMemory>
    ensures { IfOk result (λ text. string_bytes text ≡ stopped_text plan.now node) }
{
    let name = node_name(plan, node);
    let text = format!(in alloc; "stopped at limit {name}\n")?;
    Ok(text)
}

fn unsettled_text(
    alloc: Global,
    desk: usize,
    hop: usize,
    flood: usize,
) -> Result<String, OutOfMemory>
    ensures { IfOk result (λ text. string_bytes text ≡ unsettled_text desk hop flood) }
{
    let text = format!(in alloc; "unsettled desk {desk} hop {hop} flood {flood}\n")?;
    Ok(text)
}

fn table_text(alloc: Global, plan: &Plan, rows: &TableRows) -> Result<String, OutOfMemory>
    ensures { IfOk result (λ text. string_bytes text ≡ table_text plan.now rows.now) }
{
    let mut text = head(alloc, rows)?;
    push_calls(&mut text, plan, rows.calls.items())?;
    push_legs(&mut text, plan, rows.legs.items())?;
    Ok(text)
}

fn head(alloc: Global, rows: &TableRows) -> Result<String, OutOfMemory>
    ensures { IfOk result (λ text. string_bytes text ≡ table_head_text rows.now) }
{
    let calls = rows.calls.items().len();
    let legs = rows.legs.items().len();
    let text = format!(in alloc; "calls {calls} legs {legs}\n")?;
    Ok(text)
}

fn push_calls(text: &mut String, plan: &Plan, calls: &[CallRow]) -> Result<(), OutOfMemory>
    ensures { OnOk result (Appends text.old text.new (flat_map (call_text plan.now) calls.now)) }
{
    for call in calls {
        push_call(text, plan, call)?;
    }
    Ok(())
}

pub(crate) fn push_legs(text: &mut String, plan: &Plan, legs: &[LegRow]) -> Result<(), OutOfMemory>
    ensures { OnOk result (Appends text.old text.new (flat_map (leg_text plan.now) legs.now)) }
{
    for leg in legs {
        push_leg(text, plan, leg)?;
    }
    Ok(())
}

fn push_call(text: &mut String, plan: &Plan, row: &CallRow) -> Result<(), OutOfMemory>
    ensures { OnOk result (Appends text.old text.new (call_text plan.now row.now)) }
{
    let name = call_name(plan, row.call);
    let from = node_name(plan, row.ingress);
    let to = node_name(plan, row.egress);
    let state = state_word(row.state);
    write!(text, "call {name} {from} {to} {state}")?;
    push_lsps(text, plan, row)?;
    push_cause(text, row.cause)?;
    text.push_str("\n")?;
    Ok(())
}

// The LSPs of a call, each with a space in front, and a space after them.
fn push_lsps(text: &mut String, plan: &Plan, row: &CallRow) -> Result<(), OutOfMemory>
    ensures { OnOk result (Appends text.old text.new (call_lsps plan.now row.now)) }
{
    text.push_str(" ")?;
    push_lsp_or_dash(text, plan, row.work)?;
    text.push_str(" ")?;
    push_lsp_or_dash(text, plan, row.back)?;
    text.push_str(" ")?;
    Ok(())
}

fn push_leg(text: &mut String, plan: &Plan, row: &LegRow) -> Result<(), OutOfMemory>
    ensures { OnOk result (Appends text.old text.new (leg_text plan.now row.now)) }
{
    push_place(text, plan, row)?;
    push_labels(text, row)?;
    push_back(text, row)?;
    text.push_str("\n")?;
    Ok(())
}

// The LSP, the node, the role and the phase, with a space after them.
fn push_place(text: &mut String, plan: &Plan, row: &LegRow) -> Result<(), OutOfMemory>
    ensures { OnOk result (Appends text.old text.new (leg_place plan.now row.now)) }
{
    text.push_str("leg ")?;
    push_lsp(text, plan, row.lsp)?;
    push_standing(text, plan, row)?;
    Ok(())
}

// The node, the role and the phase, with a space on either side.
fn push_standing(text: &mut String, plan: &Plan, row: &LegRow) -> Result<(), OutOfMemory>
    ensures { OnOk result (Appends text.old text.new (leg_standing plan.now row.now)) }
{
    text.push_str(" ")?;
    push_word(text, node_name(plan, row.node))?;
    push_word(text, role_word(row.role))?;
    push_word(text, phase_word(row.phase))
}

// The word, and a space after it.
fn push_word(text: &mut String, word: &str) -> Result<(), OutOfMemory>
    ensures { OnOk result (Appends text.old text.new (word.now ++ codes " ")) }
{
    text.push_str(word)?;
    text.push_str(" ")?;
    Ok(())
}

fn push_number(text: &mut String, n: u32) -> Result<(), OutOfMemory>
    ensures { OnOk result (Appends text.old text.new (decimal n)) }
{
    let mut digits = Buffer::new();
    text.push_str(digits.format(n))?;
    Ok(())
}

// What comes in and what goes out, with a space between them.
fn push_labels(text: &mut String, row: &LegRow) -> Result<(), OutOfMemory>
    ensures { OnOk result (Appends text.old text.new (leg_labels row.now)) }
{
    push_label(text, row.in_link, row.in_label)?;
    text.push_str(" ")?;
    push_label(text, row.out_link, row.out_label)
}

// The backward labels, where there is one.
fn push_back(text: &mut String, row: &LegRow) -> Result<(), OutOfMemory>
    ensures { OnOk result (Appends text.old text.new (back_text row.now)) }
{
    if row.back_in.is_none() && row.back_out.is_none() {
        return Ok(());
    }
    text.push_str(" back ")?;
    push_back_label(text, row.out_link, row.back_in)?;
    text.push_str(" ")?;
    push_back_label(text, row.in_link, row.back_out)
}

fn push_back_label(
    text: &mut String,
    link: Option<LinkId>,
    label: Option<Label>,
) -> Result<(), OutOfMemory>
    ensures { OnOk result (Appends text.old text.new (back_label_text link label)) }
{
    match label {
        None => text.push_str("-")?,
        Some(label) => push_label(text, link, Some(label))?,
    }
    Ok(())
}

fn push_label(
    text: &mut String,
    link: Option<LinkId>,
    label: Option<Label>,
) -> Result<(), OutOfMemory>
    ensures { OnOk result (Appends text.old text.new (label_text link label)) }
{
    let Some(link) = link else {
        text.push_str("-")?;
        return Ok(());
    };
    push_number(text, link.0)?;
    text.push_str("/")?;
    push_label_or_dash(text, label)
}

fn push_label_or_dash(text: &mut String, label: Option<Label>) -> Result<(), OutOfMemory>
    ensures { OnOk result (Appends text.old text.new (label_or_dash label)) }
{
    match label {
        None => text.push_str("-")?,
        Some(label) => push_number(text, u32::from(label.number()))?,
    }
    Ok(())
}

fn push_lsp_or_dash(text: &mut String, plan: &Plan, lsp: Option<Lsp>) -> Result<(), OutOfMemory>
    ensures { OnOk result (Appends text.old text.new (lsp_or_dash plan.now lsp)) }
{
    match lsp {
        None => text.push_str("-")?,
        Some(lsp) => push_lsp(text, plan, lsp)?,
    }
    Ok(())
}

fn push_lsp(text: &mut String, plan: &Plan, lsp: Lsp) -> Result<(), OutOfMemory>
    ensures { OnOk result (Appends text.old text.new (lsp_text plan.now lsp)) }
{
    text.push_str(node_name(plan, lsp.ingress))?;
    text.push_str(".")?;
    push_number(text, u32::from(lsp.tunnel))?;
    text.push_str(".")?;
    push_number(text, u32::from(lsp.lsp))
}

fn push_cause(text: &mut String, cause: Cause) -> Result<(), OutOfMemory>
    ensures { OnOk result (Appends text.old text.new (cause_text cause)) }
{
    match cause {
        Cause::Unset => text.push_str("-")?,
        Cause::NoRoute => text.push_str("noroute")?,
        Cause::NoBackup => text.push_str("nobackup")?,
        Cause::Spent => text.push_str("spent")?,
        Cause::Full => text.push_str("full")?,
        Cause::BackDown => text.push_str("backdown")?,
        Cause::Code(code) => push_code(text, code)?,
    }
    Ok(())
}

// The code's name, or code and value in decimal.
fn push_code(text: &mut String, code: ErrCode) -> Result<(), OutOfMemory>
    ensures { OnOk result (Appends text.old text.new (named_or_decimal (code_name code) code)) }
{
    match code_name(code) {
        None => write!(text, "{}/{}", code.code, code.value)?,
        Some(name) => text.push_str(name)?,
    }
    Ok(())
}

/// The node's name; empty where the plan has no such node.
pub fn node_name(plan: &Plan, node: NodeId) -> &str
    ensures { result.now ≡ node_name plan.now node }
{
    match node_place(plan, node) {
        None => "",
        Some(place) => name_at(plan.node_names.items(), place),
    }
}

fn node_place(plan: &Plan, node: NodeId) -> Option<usize>
    ensures { result ≡ position (λ n. n.id.0 == node.0) plan.now.topology.nodes }
{
    plan.topology.nodes().iter().position(|n| n.id == node)
}

/// The call's name; empty where the plan has no such call.
pub fn call_name(plan: &Plan, call: CallNo) -> &str
    ensures { result.now ≡ call_name plan.now call }
{
    name_at(plan.call_names.items(), usize::from(call.0))
}

fn name_at(names: &[Name], place: usize) -> &str
    ensures { result.now ≡ name_at names.now place }
{
    match names.get(place) {
        None => "",
        Some(name) => name.as_str(),
    }
}

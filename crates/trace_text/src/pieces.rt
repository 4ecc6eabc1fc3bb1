//! Pieces of a trace as they are written.

ghost use Rattle.std.specs.{Prelude.{◌≡◌, ◌<◌, ◌≤◌, ◌^◌, IfErr, IfOk, OnErr, OnOk, length, string_bytes}, Io.KnownBytes.Appends};
ghost use Rattle.ason_io.specs.Faults.{Rose};
ghost use Rattle.world_merge.specs.Lines.{lent_line};
ghost use Rattle.trace_text.specs.{EntryLines.entry_line, TraceText.{end_text, events_line, trace_head_text, plan_line}, Widths.EntryFits, Written.AppendsPart, declared.write.TraceWriteFault.TraceWriteFault};

use crate::lines::push_entry;
use crate::write::TraceWriteFault;
use ason_base::{EntryRef, OutOfMemory, TableRows};
use ason_io::{Sink, write_all};
use plan_reader::Plan;
use std::alloc::Global;
use table_text::write_table;

fn write_piece<K: Sink>(out: &mut K, piece: &[u8]) -> Result<(), TraceWriteFault>
    ensures all { OnOk result (Appends (K.written out.old) (K.written out.new) piece.now) }
    ensures part { OnErr result (AppendsPart (K.written out.old) (K.written out.new) piece.now) }
    ensures failed { OnErr result (Rose (K.faults out.old) (K.faults out.new)) }
    ensures rises { K.faults out.old ≤ K.faults out.new }
{
    match write_all(out, piece) {
        Ok(()) => Ok(()),
        Err(_) => Err(TraceWriteFault::Failed),
    }
}

fn plan_line(alloc: Global, bytes: usize) -> Result<String, OutOfMemory>
    ensures text { IfOk result (λ text. string_bytes text ≡ plan_line bytes) }
    ensures fits { bytes < 2 ^ 64 }
{
    let text = format!(in alloc; "ason-trace 2\nplan {bytes}\n")?;
    Ok(text)
}

fn events_line(alloc: Global, events: u64) -> Result<String, OutOfMemory>
    ensures { IfOk result (λ text. string_bytes text ≡ events_line events) }
{
    let text = format!(in alloc; "\nevents {events}\n")?;
    Ok(text)
}

fn end_text(alloc: Global, plan: &Plan, rows: &TableRows) -> Result<Vec<u8>, OutOfMemory>
    ensures { IfOk result (λ text. text.items ≡ end_text plan.now rows.now) }
{
    let mut text = Vec::new(alloc);
    text.extend_from_slice(b"table\n")?;
    write_table(alloc, &mut text, plan, rows)?;
    text.extend_from_slice(b"end\n")?;
    Ok(text)
}

/// Writes the head: the version, the plan's bytes and how many events there are.
pub fn write_head<K: Sink>(
    alloc: Global,
    out: &mut K,
    plan_bytes: &[u8],
    count: u64,
) -> Result<(), TraceWriteFault>
    ensures all { OnOk result (Appends (K.written out.old) (K.written out.new)
        (trace_head_text plan_bytes.now count)) }
    ensures part { OnErr result (AppendsPart (K.written out.old) (K.written out.new)
        (trace_head_text plan_bytes.now count)) }
    ensures fits { OnOk result (length plan_bytes.now < 2 ^ 64) }
    ensures failed { IfErr result (λ e. e ≡ TraceWriteFault.Failed →
        Rose (K.faults out.old) (K.faults out.new)) }
    ensures rises { K.faults out.old ≤ K.faults out.new }
{
    let first = plan_line(alloc, plan_bytes.len())?;
    let last = events_line(alloc, count)?;
    write_piece(out, first.as_bytes())?;
    write_piece(out, plan_bytes)?;
    write_piece(out, last.as_bytes())
}

/// Writes the line of an entry. The text is made in `line`, whatever that was before.
pub fn write_line<'a, K: Sink>(
    line: &mut String,
    out: &mut K,
    plan: &Plan,
    entry: EntryRef<'a>,
) -> Result<(), TraceWriteFault>
    ensures all { OnOk result (Appends (K.written out.old) (K.written out.new)
        (entry_line plan.now (lent_line entry.entry))) }
    ensures part { OnErr result (AppendsPart (K.written out.old) (K.written out.new)
        (entry_line plan.now (lent_line entry.entry))) }
    ensures fits { OnOk result (EntryFits (lent_line entry.entry)) }
    ensures failed { IfErr result (λ e. e ≡ TraceWriteFault.Failed →
        Rose (K.faults out.old) (K.faults out.new)) }
    ensures rises { K.faults out.old ≤ K.faults out.new }
{
    line.clear();
    push_entry(line, plan, entry)?;
    write_piece(out, line.as_bytes())
}

/// Writes the end: the table between its lines.
pub fn write_end<K: Sink>(
    alloc: Global,
    out: &mut K,
    plan: &Plan,
    rows: &TableRows,
) -> Result<(), TraceWriteFault>
    ensures all { OnOk result (Appends (K.written out.old) (K.written out.new)
        (end_text plan.now rows.now)) }
    ensures part { OnErr result (AppendsPart (K.written out.old) (K.written out.new)
        (end_text plan.now rows.now)) }
    ensures failed { IfErr result (λ e. e ≡ TraceWriteFault.Failed →
        Rose (K.faults out.old) (K.faults out.new)) }
    ensures rises { K.faults out.old ≤ K.faults out.new }
{
    let text = end_text(alloc, plan, rows)?;
    write_piece(out, &text)
}

//! Writes the trace of a run.

ghost use Rattle.std.specs.{Prelude.{◌≡◌, ◌≤◌, [], IfErr, List, OnErr, OnOk, length}, Iterator.{Drains, IsFinite}};
ghost use Rattle.ason_base.specs.declared.commands.EntryRef.{EntryRef};
ghost use Rattle.ason_io.specs.Faults.{Rose};
ghost use Rattle.trace_text.specs.{Written.{StoppedAtEntry, WroteEntries, WrotePart, WroteTrace}, declared.write.TraceWriteFault.TraceWriteFault};

use crate::pieces::{write_end, write_head, write_line};
use ason_base::{EntryRef, OutOfMemory, TableRows};
use ason_io::Sink;
use plan_reader::Plan;
use std::alloc::{AllocError, Global};

/// Why a trace isn't written as a whole.
#[derive(Clone, Copy, Drop)]
pub enum TraceWriteFault {
    /// The sink failed.
    Failed,
    OutOfMemory,
}

impl From<OutOfMemory> for TraceWriteFault {
    ghost from_gives = { λ _ error. error ≡ TraceWriteFault.OutOfMemory };

    fn from(_: OutOfMemory) -> TraceWriteFault {
        TraceWriteFault::OutOfMemory
    }
}

impl From<AllocError> for TraceWriteFault {
    ghost from_gives = { λ _ error. error ≡ TraceWriteFault.OutOfMemory };

    fn from(_: AllocError) -> TraceWriteFault {
        TraceWriteFault::OutOfMemory
    }
}

// Writes the line of each entry, before the next entry is asked for.
fn write_entries<'a, K: Sink, I: Iterator<Item = EntryRef<'a>> + Drop>(
    alloc: Global,
    out: &mut K,
    plan: &Plan,
    entries: I,
) -> Result<(), TraceWriteFault>
    requires can { I.can_next entries }
    requires ends { IsFinite (I.remaining entries) }
    ensures all { OnOk result (WroteEntries I.next_gives entries plan.now
        (K.written out.old) (K.written out.new)) }
    ensures part { OnErr result (StoppedAtEntry I.next_gives entries plan.now []
        (K.written out.old) (K.written out.new)) }
    ensures failed { IfErr result (λ e. e ≡ TraceWriteFault.Failed →
        Rose (K.faults out.old) (K.faults out.new)) }
    ensures rises { K.faults out.old ≤ K.faults out.new }
{
    let mut line = String::new(alloc);
    for entry in entries {
        write_line(&mut line, out, plan, entry)?;
    }
    Ok(())
}

/// Writes the trace of these entries, `count` in number, over the plan, whose bytes are given, with the last table.
/// Each line is written before the next entry is asked for. After a fault a first part of the trace is written, up to
/// the line of the last entry that came, and not all of it; `Failed` comes only from the sink.
pub fn write_trace<'a, K: Sink, I: Iterator<Item = EntryRef<'a>> + Drop>(
    alloc: Global,
    out: &mut K,
    plan_bytes: &[u8],
    plan: &Plan,
    entries: I,
    count: u64,
    rows: &TableRows,
) -> Result<(), TraceWriteFault>
    requires can { I.can_next entries }
    requires ends { IsFinite (I.remaining entries) }
    requires counted { (es : List EntryRef) → Drains I.next_gives entries es → length es ≡ count }
    ensures all { OnOk result (WroteTrace I.next_gives entries plan.now plan_bytes.now rows.now
        (K.written out.old) (K.written out.new)) }
    ensures part { OnErr result (WrotePart I.next_gives entries plan.now plan_bytes.now count
        rows.now (K.written out.old) (K.written out.new)) }
    ensures failed { IfErr result (λ e. e ≡ TraceWriteFault.Failed →
        Rose (K.faults out.old) (K.faults out.new)) }
    ensures rises { K.faults out.old ≤ K.faults out.new }
{
    write_head(alloc, out, plan_bytes, count)?;
    write_entries(alloc, out, plan, entries)?;
    write_end(alloc, out, plan, rows)
}

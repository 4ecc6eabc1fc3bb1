//! Tells whether an input is the trace of a run.

ghost use Rattle.std.specs.Prelude.{◌≡◌, ℕ, Err, List, IfOk, OnOk, string_bytes};
ghost use Rattle.ason_base.specs.Texts.{Appends};
ghost use Rattle.commands.specs.{CheckTexts.{checked_text, migrated_line, not_run_text, run_line, summary}, Replies.IsCheckAnswered};
ghost use Rattle.trace_text.specs.Checks.{ChecksAs, IsChecked, IsNotRun};

use crate::status::Status;
use crate::telling::{refuse, tell};
use ason_base::OutOfMemory;
use ason_io::Sink;
use std::alloc::Global;
use table_text::write_table;
use trace_text::{Checked, TraceFault, check};

// How many events of a trace of version 1 were left out.
fn push_migrated(text: &mut String, checked: &Checked) -> Result<(), OutOfMemory>
    ensures { OnOk result (Appends text.old text.new (migrated_line checked.now)) }
{
    if checked.version == 2 {
        return Ok(());
    }
    let left_out = checked.left_out;
    write!(text, "migrated {left_out} left out\n")?;
    Ok(())
}

// How many events the run has.
fn push_run(text: &mut String, checked: &Checked) -> Result<(), OutOfMemory>
    ensures { OnOk result (Appends text.old text.new (run_line checked.now)) }
{
    let events = checked.events;
    write!(text, "run of {events} events\n")?;
    Ok(())
}

// What is told of a trace before its table.
fn summary(alloc: Global, checked: &Checked) -> Result<String, OutOfMemory>
    ensures { IfOk result (λ text. string_bytes text ≡ summary checked.now) }
{
    let mut text = String::new(alloc);
    push_migrated(&mut text, checked)?;
    push_run(&mut text, checked)?;
    Ok(text)
}

// What is told of a trace that passes.
fn checked_text(alloc: Global, checked: &Checked) -> Result<Vec<u8>, OutOfMemory>
    ensures { IfOk result (λ text. text.items ≡ checked_text checked.now) }
{
    let mut text = summary(alloc, checked)?.into_bytes();
    write_table(alloc, &mut text, &checked.plan, &checked.rows)?;
    Ok(text)
}

// What is told of other bytes.
fn not_run_text(alloc: Global, i: u64) -> Result<Vec<u8>, OutOfMemory>
    ensures { IfOk result (λ text. text.items ≡ not_run_text i) }
{
    let text = format!(in alloc; "not a run {i}\n")?;
    Ok(text.into_bytes())
}

// Tells of a trace that passes.
fn tell_checked<K: Sink>(alloc: Global, checked: &Checked, out: &mut K) -> Status
    ensures { (bs : List ℕ) → IsChecked bs checked.now
        → IsCheckAnswered K.written K.faults bs out.old out.new result }
{
    match checked_text(alloc, checked) {
        Ok(text) => tell(out, &text, Status::Done),
        Err(OutOfMemory) => Status::OutOfMemory,
    }
}

// Tells of other bytes.
fn tell_not_run<K: Sink>(alloc: Global, i: u64, out: &mut K) -> Status
    ensures { (bs : List ℕ) → IsNotRun bs i
        → IsCheckAnswered K.written K.faults bs out.old out.new result }
{
    match not_run_text(alloc, i) {
        Ok(text) => tell(out, &text, Status::NotRun),
        Err(OutOfMemory) => Status::OutOfMemory,
    }
}

// Tells why there is no run.
fn tell_fault<K: Sink>(alloc: Global, fault: TraceFault, out: &mut K) -> Status
    ensures { (bs : List ℕ) → ChecksAs bs (Err fault)
        → IsCheckAnswered K.written K.faults bs out.old out.new result }
{
    match fault {
        TraceFault::NotRun(i) => tell_not_run(alloc, i, out),
        TraceFault::Plan(fault) => refuse(alloc, fault, out),
        TraceFault::OutOfMemory => Status::OutOfMemory,
    }
}

/// What `check` answers of the input.
pub fn check_input<K: Sink>(alloc: Global, bytes: &[u8], out: &mut K) -> Status
    ensures { IsCheckAnswered K.written K.faults bytes.now out.old out.new result }
{
    match check(alloc, bytes) {
        Ok(checked) => tell_checked(alloc, &checked, out),
        Err(fault) => tell_fault(alloc, fault, out),
    }
}

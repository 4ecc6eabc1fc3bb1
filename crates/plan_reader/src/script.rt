//! The script of a plan.

ghost use Rattle.std.specs.Prelude.{◌≡◌, ◌≤◌, Err, IfOk, Ok, OnOk, length};
ghost use Rattle.toml.specs.View.{view};
ghost use Rattle.plan_reader.specs.{Entries.{FailsAs, FailsBy, FailsWith}, PlanCalls.CallList, PlanTables.views, PlanTexts.{texts, words_of}, PlanScript.{AddsLine, IsRead, calls_with_line, script_line, other_line, plain_line, settle_of, wait_of}, Plans.IsScriptOf, declared.faults.PlanError.PlanError, declared.faults.PlanKind.PlanKind};

use crate::calls::NamedCalls;
use crate::commands::read_command;
use crate::faults::{EntryError, PlanEntry, PlanError, PlanKind, error_at};
use crate::forms::{command_form, disturb_form, is_noise, is_settle, is_show, is_wait, setup_form};
use crate::frames::{check_noise, read_disturb, read_noise};
use crate::limits::{MOST_LINES, MOST_ROUNDS, MOST_WAITED};
use crate::lines::{Line, Lines};
use crate::names::Names;
use crate::setups::read_setup;
use crate::values::text_of;
use crate::words::{positive_at, words_of};
use ason_base::Topology;
use std::alloc::Global;
use toml::Value;

// A settle, or its first fault.
fn read_settle(words: &[&[u8]]) -> Result<Line, EntryError>
    ensures line { IfOk result (λ l. settle_of (texts words.now) ≡ Ok l) }
    ensures fault { FailsBy result (settle_of (texts words.now)) }
{
    let rounds = positive_at(words, 1, MOST_ROUNDS)?;
    Ok(Line::Settle(rounds))
}

// A wait, or its first fault.
fn read_wait(words: &[&[u8]]) -> Result<Line, EntryError>
    ensures line { IfOk result (λ l. wait_of (texts words.now) ≡ Ok l) }
    ensures fault { FailsBy result (wait_of (texts words.now)) }
{
    let rounds = positive_at(words, 1, MOST_WAITED)?;
    Ok(Line::Wait(rounds))
}

// Lines

// What a line that neither posts anything nor is about frames says, or its first fault.
fn read_plain_line(words: &[&[u8]]) -> Result<Line, EntryError>
    ensures line { IfOk result (λ l. plain_line (texts words.now) ≡ Ok l) }
    ensures calls { (k : CallList) → IfOk result (λ l. calls_with_line k (texts words.now) l ≡ k) }
    ensures fault { FailsBy result (plain_line (texts words.now)) }
{
    if is_settle(words) {
        return read_settle(words);
    }
    if is_wait(words) {
        return read_wait(words);
    }
    if is_show(words) {
        return Ok(Line::Show);
    }
    Err(EntryError::Fault(PlanKind::Words))
}

// What a line that is no setup says, or its first fault.
fn read_other_line(
    alloc: Global,
    t: &Topology,
    names: &Names,
    calls: &NamedCalls,
    words: &[&[u8]],
) -> Result<Line, EntryError>
    ensures line { IfOk result
        (λ l. other_line t.now names.now calls.now (texts words.now) ≡ Ok l) }
    ensures calls { IfOk result (λ l. calls_with_line calls.now (texts words.now) l ≡ calls.now) }
    ensures fault { FailsBy result (other_line t.now names.now calls.now (texts words.now)) }
{
    match command_form(words) {
        Some(form) => {
            let command = read_command(alloc, t, calls, words, form)?;
            Ok(Line::Post(command))
        }
        None => match disturb_form(words) {
            Some(kind) => read_disturb(t, names, words, kind),
            None if is_noise(words) => read_noise(alloc, t, names, words),
            None => read_plain_line(words),
        },
    }
}

// What a line says, or its first fault. The call of a setup is added to the calls.
fn read_line(
    alloc: Global,
    t: &Topology,
    names: &Names,
    calls: &mut NamedCalls,
    words: &[&[u8]],
    two_way: bool,
) -> Result<Line, EntryError>
    ensures line { IfOk result
        (λ l. script_line two_way t.now names.now calls.old (texts words.now) ≡ Ok l) }
    ensures calls { IfOk result (λ l. calls.new ≡ calls_with_line calls.old (texts words.now) l) }
    ensures fault { FailsBy result
        (script_line two_way t.now names.now calls.old (texts words.now)) }
{
    match setup_form(two_way, words) {
        None => read_other_line(alloc, t, names, calls, words),
        Some(form) => {
            let command = read_setup(alloc, t, names, calls, words, form)?;
            Ok(Line::Post(command))
        }
    }
}

/// The calls and the lines of a script.
#[derive(Drop)]
pub struct Script {
    pub calls: NamedCalls,
    pub lines: Lines,
}

// Passes the line, unless it is noise that spells a frame: that is a fault.
fn check_line(alloc: Global, line: &Line) -> Result<(), EntryError>
    ensures passes { IfOk result (λ _. IsRead (Ok line.now) (Ok line.now)) }
    ensures fault { FailsWith result (λ k. IsRead (Ok line.now) (Err k)) }
{
    match line {
        Line::Noise { bytes, .. } => check_noise(alloc, bytes.items()),
        _ => Ok(()),
    }
}

// A line behind those before it, or its first fault.
fn read_text(
    alloc: Global,
    t: &Topology,
    names: &Names,
    read: &mut Script,
    value: &Value,
    two_way: bool,
) -> Result<(), EntryError>
    ensures ok { OnOk result
        (AddsLine two_way t.now names.now read.old (view value.now) (Ok read.new)) }
    ensures fault { FailsWith result
        (λ k. AddsLine two_way t.now names.now read.old (view value.now) (Err k)) }
{
    let words = words_of(alloc, text_of(value))?;
    let line = read_line(alloc, t, names, &mut read.calls, &words, two_way)?;
    check_line(alloc, &line)?;
    read.lines.push(line)?;
    Ok(())
}

/// Reads the lines, or gives the first fault. A setup may be two-way, or not.
pub fn read_script(
    alloc: Global,
    t: &Topology,
    names: &Names,
    values: &[Value],
    two_way: bool,
) -> Result<Script, PlanError>
    requires { length values.now ≤ MOST_LINES }
    ensures script { IfOk result
        (λ s. IsScriptOf two_way t.now names.now (views values.now) (Ok s)) }
    ensures fault { FailsAs result
        (λ f. IsScriptOf two_way t.now names.now (views values.now) (Err f)) }
{
    let mut script = Script {
        calls: NamedCalls::new(alloc),
        lines: Lines::new(alloc),
    };
    'reading: for i in 0..values.len() {
        if let Err(error) = read_text(alloc, t, names, &mut script, &values[i], two_way) {
            return Err(error_at(PlanEntry::Script(i as u32 + 1), error));
        }
    }
    Ok(script)
}

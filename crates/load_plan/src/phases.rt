//! The lines that tell, after each part of a generated script, how many calls are in each state.

ghost use Rattle.std.specs.{Prelude.{◌≡◌, IfOk, OnOk, string_bytes}, List.flat_map};
ghost use Rattle.ason_base.specs.Texts.{Appends};
ghost use Rattle.load_plan.specs.PhaseTexts.{calls_in, count_text, is_in, phase_text, phase_word, states};
ghost use Rattle.table_text.specs.TableText.{state_word};

use ason_base::{CallRow, CallState, OutOfMemory};
use std::alloc::Global;
use table_text::words::state_word;

/// What was done before a line is printed.
#[derive(Clone, Copy, Drop)]
pub enum LoadPhase {
    /// All calls were set up.
    Built,
    /// The group failed.
    Failed,
    /// The group was repaired.
    Repaired,
    /// The calls had time to go back to their working LSPs.
    Reverted,
}

// The states in the order of the line.
const STATES: [CallState; 8] = [
    CallState::Asking,
    CallState::Bare,
    CallState::Pairing,
    CallState::Guarded,
    CallState::Turning,
    CallState::Turned,
    CallState::Stuck,
    CallState::Blocked,
];

fn phase_word(phase: LoadPhase) -> &'static str
    ensures { result.now ≡ phase_word phase }
{
    match phase {
        LoadPhase::Built => "built",
        LoadPhase::Failed => "failed",
        LoadPhase::Repaired => "repaired",
        LoadPhase::Reverted => "reverted",
    }
}

fn is_in(state: CallState, row: &CallRow) -> bool
    ensures { result ≡ is_in state row.now }
{
    row.state == state
}

// How many of the calls are in this state.
fn calls_in(state: CallState, rows: &[CallRow]) -> usize
    ensures { result ≡ calls_in state rows.now }
{
    rows.iter().filter(|row| is_in(state, row)).count()
}

/// The line of a phase: how many of the calls are in each state.
pub fn phase_text(alloc: Global, phase: LoadPhase, rows: &[CallRow]) -> Result<Vec<u8>, OutOfMemory>
    ensures { IfOk result (λ text. text.items ≡ phase_text phase rows.now) }
{
    let line = line(alloc, phase, rows)?;
    let text = line.as_bytes().to_vec(alloc)?;
    Ok(text)
}

fn line(alloc: Global, phase: LoadPhase, rows: &[CallRow]) -> Result<String, OutOfMemory>
    ensures { IfOk result (λ text. string_bytes text ≡ phase_text phase rows.now) }
{
    let mut text = String::from_str(alloc, phase_word(phase))?;
    push_counts(&mut text, rows, &STATES)?;
    text.push_str("\n")?;
    Ok(text)
}

fn push_counts(text: &mut String, rows: &[CallRow], states: &[CallState]) -> Result<(), OutOfMemory>
    ensures { OnOk result (Appends text.old text.new (flat_map (count_text rows.now) states.now)) }
{
    for state in states {
        push_count(text, rows, *state)?;
    }
    Ok(())
}

fn push_count(text: &mut String, rows: &[CallRow], state: CallState) -> Result<(), OutOfMemory>
    ensures { OnOk result (Appends text.old text.new (count_text rows.now state)) }
{
    let word = state_word(state);
    let count = calls_in(state, rows);
    write!(text, " {word} {count}")?;
    Ok(())
}

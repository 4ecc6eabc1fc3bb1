//! The commands of a script other than setups.

ghost use Rattle.std.specs.Prelude.{◌≡◌, Err, IfOk, Ok};
ghost use Rattle.plan_reader.specs.{Entries.FailsBy, PlanCalls.calls_with, PlanCommands.{call_of, plan_command, group_numbered, group_of}, PlanTexts.texts};

use crate::calls::NamedCalls;
use crate::faults::{EntryError, PlanKind};
use crate::forms::{CommandForm, is_word};
use crate::limits::MOST_NUMBER;
use crate::names::{Name, is_name};
use crate::words::{number, word};
use ason_base::{CallNo, Command, Group, LinkId, NodeId, Topology};
use mesh_rules::commands::has_group;
use std::alloc::Global;

// Calls

// The call that a command names, with its ingress, or the first fault.
fn read_call(
    alloc: Global,
    calls: &NamedCalls,
    words: &[&[u8]],
) -> Result<(CallNo, NodeId), EntryError>
    ensures call { IfOk result (λ c. call_of calls.now (texts words.now) ≡ Ok c) }
    ensures fault { FailsBy result (call_of calls.now (texts words.now)) }
{
    refuse_if!(!is_name(word(words, 1)), Name);
    let name = Name::new(alloc, word(words, 1))?;
    let Some((place, from)) = calls.find(&name) else {
        return Err(EntryError::Fault(PlanKind::Call));
    };
    Ok((CallNo(place as u16), from))
}

// Groups

fn group_numbered(words: &[&[u8]], number: u32) -> Group
    ensures { result ≡ group_numbered (texts words.now) number }
{
    if is_word(words, 1, "srlg") {
        Group::Srlg(number)
    } else {
        Group::Link(LinkId(number))
    }
}

// The group that a line names, or the first fault.
fn read_group(t: &Topology, words: &[&[u8]]) -> Result<Group, EntryError>
    ensures group { IfOk result (λ g. group_of t.now (texts words.now) ≡ Ok g) }
    ensures fault { FailsBy result (group_of t.now (texts words.now)) }
{
    let Some(number) = number(word(words, 2), MOST_NUMBER) else {
        return Err(EntryError::Fault(PlanKind::Range));
    };
    let group = group_numbered(words, number);
    refuse_if!(!has_group(t, group), Group);
    Ok(group)
}

// Commands

// A command of the call that a line names.
macro_rules! of_call {
    ($command:ident, $alloc:ident, $calls:ident, $words:ident) => {{
        let (call, from) = read_call($alloc, $calls, $words)?;
        Ok(Command::$command { call, from })
    }};
}

/// A command of this form, or its first fault. It sets up no call.
pub fn read_command(
    alloc: Global,
    t: &Topology,
    calls: &NamedCalls,
    words: &[&[u8]],
    form: CommandForm,
) -> Result<Command, EntryError>
    ensures says { IfOk result (λ c. plan_command t.now calls.now (texts words.now) form ≡ Ok c) }
    ensures calls { IfOk result (λ c. calls_with calls.now (texts words.now) c ≡ calls.now) }
    ensures fault { FailsBy result (plan_command t.now calls.now (texts words.now) form) }
{
    match form {
        CommandForm::Release => of_call!(Release, alloc, calls, words),
        CommandForm::Protect => of_call!(Protect, alloc, calls, words),
        CommandForm::Retry => of_call!(Retry, alloc, calls, words),
        CommandForm::Revert => of_call!(Revert, alloc, calls, words),
        CommandForm::Fail => {
            let group = read_group(t, words)?;
            Ok(Command::Fail { group })
        }
        CommandForm::Repair => {
            let group = read_group(t, words)?;
            Ok(Command::Repair { group })
        }
    }
}

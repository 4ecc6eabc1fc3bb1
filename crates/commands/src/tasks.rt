//! The commands.

ghost use Rattle.std.specs.Prelude.{◌≡◌, map, string_bytes};
ghost use Rattle.commands.specs.Tasks.{alone, asked, command_of, load_task, run_inquiry, run_task, task_of};

use crate::loads::{Load, load_of};
use crate::options::{Pace, RunOptions, Telling, run_of};

/// What the words ask for.
#[derive(Clone, Copy, Drop)]
pub enum Task {
    /// To judge an input.
    Of(Inquiry),
    /// To run a generated plan, for which nothing is read.
    Load(Load),
}

/// What is asked of an input.
#[derive(Clone, Copy, Drop)]
pub enum Inquiry {
    /// To run a plan, and to tell its tables.
    Run(Pace),
    /// To run a plan, and to tell the trace of its run.
    Trace(Pace),
    /// To run a plan, and to tell its tables and the last view of a node, behind whose name so many words stand.
    Watch(Pace, usize),
    /// To tell whether it is the trace of a run.
    Check,
    /// To tell what messages say.
    Decode,
    /// To tell the survey of a plan's last table.
    Survey,
    /// To tell something of two nodes of a plan.
    Ask(Question),
}

/// What is asked of two nodes of a plan.
#[derive(Clone, Copy, Drop)]
pub enum Question {
    /// The least route, its backup, and each node's potential.
    Route,
    /// The best pair of routes.
    Best,
}

fn run_inquiry(said: RunOptions) -> Inquiry
    ensures { result ≡ run_inquiry said }
{
    match said.telling {
        Telling::Tables => Inquiry::Run(said.pace),
        Telling::Trace => Inquiry::Trace(said.pace),
        Telling::Watch(behind) => Inquiry::Watch(said.pace, behind),
    }
}

// To run a plan with these options, where they have a meaning.
fn run_task(words: &[String]) -> Option<Task>
    ensures { result ≡ run_task (map string_bytes words.now) }
{
    let said = run_of(words)?;
    Some(Task::Of(run_inquiry(said)))
}

// To run a plan that is generated so, where this has a meaning.
fn load_task(words: &[String]) -> Option<Task>
    ensures { result ≡ load_task (map string_bytes words.now) }
{
    let load = load_of(words)?;
    Some(Task::Load(load))
}

// This, where no words are behind.
fn alone(words: &[String], inquiry: Inquiry) -> Option<Task>
    ensures { result ≡ alone (map string_bytes words.now) inquiry }
{
    if words.is_empty() {
        Some(Task::Of(inquiry))
    } else {
        None
    }
}

// To ask this of two names.
fn asked(question: Question, names: &[String]) -> Option<Task>
    ensures { result ≡ asked question (map string_bytes names.now) }
{
    match names {
        [_, _] => Some(Task::Of(Inquiry::Ask(question))),
        _ => None,
    }
}

// What a command with these words behind it asks for.
fn command_of(command: &str, words: &[String]) -> Option<Task>
    ensures { result ≡ command_of command.now (map string_bytes words.now) }
{
    match command {
        "run" => run_task(words),
        "check" => alone(words, Inquiry::Check),
        "decode" => alone(words, Inquiry::Decode),
        "survey" => alone(words, Inquiry::Survey),
        "route" => asked(Question::Route, words),
        "best" => asked(Question::Best, words),
        "load" => load_task(words),
        _ => None,
    }
}

/// What the words ask for: none exactly where they have no meaning. It takes no memory.
pub fn task_of(words: &[String]) -> Option<Task>
    ensures { result ≡ task_of (map string_bytes words.now) }
{
    match words {
        [] => None,
        [command, others @ ..] => command_of(command.as_str(), others),
    }
}

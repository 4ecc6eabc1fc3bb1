//! The top call: reads an input, and writes what a plan's network came to, its trace, the survey of its last table, its
//! routes, its best pair of them, or what messages say; or runs a generated plan.

ghost use Rattle.std.specs.Prelude.{◌≡◌, ℕ, List, [], None, Some, Ok, map, string_bytes};
ghost use Rattle.ason_base.specs.Network.{IsTopology};
ghost use Rattle.ason_main.specs.Answers.{IsAnswered, IsCheckedTrace, IsComplete, IsCompleteLoad, IsReply, IsReplyFor, TellsItsRun, TellsRun, asked_for};
ghost use Rattle.commands.specs.Replies.{Reply, Run, Survey, TakesPlan, WasGiven, request_for};
ghost use Rattle.plan_reader.specs.Plans.{ArePostable, PlanOf};
ghost use Rattle.round_rules.specs.Records.{new_record};
ghost use Rattle.fleet.specs.Standing.{StandsFor};

use crate::host::Host;
use crate::keeping::keep;
use crate::laws::every_law;
use crate::loads::load;
use crate::runner::run::{Ran, run_plan};
use crate::runner::stops::Stop;
use crate::surveying::survey_of;
use crate::traces::trace;
use crate::watching::watch_named;
use ason_base::OutOfMemory;
use ason_io::{Gate, ReadAllFault, Sink, Source, read_all};
use commands::answers::{decode_input, tell_ends, tell_error};
use commands::checks::check_input;
use commands::telling::{tell, tell_stop, tell_usage};
use commands::words::{name_before, word_at};
use commands::{Inquiry, Pace, Status, Task, task_of};
use fleet::Fleet;
use plan_reader::{Plan, read_plan};
use std::alloc::Global;
use std::sync::Wait;
use std::thread::Threads;
use trace_text::laws::every_check;

/// The most bytes of an input.
const LIMIT: usize = 4_194_304;

// Runs the plan on this fleet.
fn run_fleet<R: Threads + Wait + Sync, K: Sink, G: Gate>(
    host: &Host<R, G>,
    plan: &Plan,
    pace: Pace,
    fleet: &mut Fleet,
    out: &mut K,
) -> Status
    requires new { StandsFor plan.now.topology [] fleet.old new_record }
    requires postable { ArePostable plan.now.topology [] plan.now.lines }
    ensures { (bs : List ℕ) → PlanOf bs (Ok plan.now)
        → IsAnswered K.written K.faults (Run pace) bs out.old out.new (Some fleet.new) result }
{
    every_law();
    let (workers, stride) = (pace.workers(), pace.stride());
    match run_plan(
        host.rt, host.alloc, fleet, plan, workers, stride, true, out, host.gate, None,
    ) {
        Ran::Ended => Status::Done,
        Ran::AtLimit(node) => tell_stop(host.alloc, plan, node, out),
        Ran::Failed => Status::WriteFault,
        Ran::OutOfMemory => Status::OutOfMemory,
    }
}

// Runs the plan, and keeps the fleet that made the run.
fn run<R: Threads + Wait + Sync, K: Sink, G: Gate>(
    host: &Host<R, G>,
    plan: &Plan,
    pace: Pace,
    out: &mut K,
    kept: &mut Option<Fleet>,
) -> Status
    requires postable { ArePostable plan.now.topology [] plan.now.lines }
    requires none { kept.old ≡ None }
    ensures { (bs : List ℕ) → PlanOf bs (Ok plan.now)
        → IsAnswered K.written K.faults (Run pace) bs out.old out.new kept.new result }
{
    match Fleet::new(host.alloc, &plan.topology) {
        Ok(mut fleet) => {
            let status = run_fleet(host, plan, pace, &mut fleet, out);
            keep(kept, fleet);
            status
        }
        Err(OutOfMemory) => Status::OutOfMemory,
    }
}

// Tells the survey of the plan's last table, of a run on this fleet.
fn survey_fleet<R: Threads + Wait + Sync, K: Sink, G: Gate>(
    host: &Host<R, G>,
    plan: &Plan,
    fleet: &mut Fleet,
    out: &mut K,
) -> Status
    requires new { StandsFor plan.now.topology [] fleet.old new_record }
    requires postable { ArePostable plan.now.topology [] plan.now.lines }
    ensures { (bs : List ℕ) → PlanOf bs (Ok plan.now)
        → IsAnswered K.written K.faults Survey bs out.old out.new (Some fleet.new) result }
{
    every_law();
    match survey_of(host, plan, fleet, out) {
        Ok(text) => tell(out, &text, Status::Done),
        Err(Stop::AtLimit(node)) => tell_stop(host.alloc, plan, node, out),
        // Nothing is written before the survey is told.
        Err(Stop::Failed) => unreachable!(),
        Err(Stop::OutOfMemory) => Status::OutOfMemory,
    }
}

// Tells the survey of the plan's last table, and keeps the fleet that made the run.
fn survey<R: Threads + Wait + Sync, K: Sink, G: Gate>(
    host: &Host<R, G>,
    plan: &Plan,
    out: &mut K,
    kept: &mut Option<Fleet>,
) -> Status
    requires postable { ArePostable plan.now.topology [] plan.now.lines }
    requires none { kept.old ≡ None }
    ensures { (bs : List ℕ) → PlanOf bs (Ok plan.now)
        → IsAnswered K.written K.faults Survey bs out.old out.new kept.new result }
{
    match Fleet::new(host.alloc, &plan.topology) {
        Ok(mut fleet) => {
            let status = survey_fleet(host, plan, &mut fleet, out);
            keep(kept, fleet);
            status
        }
        Err(OutOfMemory) => Status::OutOfMemory,
    }
}

/// Words, and what they ask of an input.
#[derive(Clone, Copy)]
pub struct Asked<'a> {
    words: &'a [String],
    inquiry: Inquiry,
}

// What is answered of an input that is this plan.
fn over_plan<R: Threads + Wait + Sync, K: Sink, G: Gate>(
    host: &Host<R, G>,
    asked: &Asked,
    plan: &Plan,
    bytes: &[u8],
    out: &mut K,
    kept: &mut Option<Fleet>,
) -> Status
    requires takes { TakesPlan (asked_for asked.now) }
    requires plan { PlanOf bytes.now (Ok plan.now) }
    requires valid { IsTopology plan.now.topology }
    requires postable { ArePostable plan.now.topology [] plan.now.lines }
    requires none { kept.old ≡ None }
    ensures { IsAnswered K.written K.faults (asked_for asked.now) bytes.now out.old out.new kept.new result }
{
    match asked.inquiry {
        Inquiry::Run(pace) => run(host, plan, pace, out, kept),
        Inquiry::Trace(pace) => trace(host, plan, bytes, pace, out, kept),
        Inquiry::Watch(pace, behind) => {
            watch_named(
                host,
                plan,
                pace,
                name_before(asked.words, behind),
                out,
                kept,
            )
        }
        Inquiry::Survey => survey(host, plan, out, kept),
        Inquiry::Ask(question) => {
            let from = word_at(asked.words, 1);
            tell_ends(
                host.alloc,
                plan,
                question,
                from,
                word_at(asked.words, 2),
                out,
            )
        }
        Inquiry::Check | Inquiry::Decode => unreachable!(),
    }
}

// What is answered of an input where a plan is asked for.
fn plan_input<R: Threads + Wait + Sync, K: Sink, G: Gate>(
    host: &Host<R, G>,
    asked: &Asked,
    bytes: &[u8],
    out: &mut K,
    kept: &mut Option<Fleet>,
) -> Status
    requires takes { TakesPlan (asked_for asked.now) }
    requires none { kept.old ≡ None }
    ensures { IsAnswered K.written K.faults (asked_for asked.now) bytes.now out.old out.new kept.new result }
{
    match read_plan(host.alloc, bytes) {
        Ok(plan) => over_plan(host, asked, &plan, bytes, out, kept),
        Err(error) => tell_error(host.alloc, error, out),
    }
}

// What is answered of the input.
fn judge<R: Threads + Wait + Sync, K: Sink, G: Gate>(
    host: &Host<R, G>,
    asked: &Asked,
    bytes: &[u8],
    out: &mut K,
    kept: &mut Option<Fleet>,
) -> Status
    requires { kept.old ≡ None }
    ensures { IsAnswered K.written K.faults (asked_for asked.now) bytes.now out.old out.new kept.new result }
{
    match asked.inquiry {
        Inquiry::Check => check_input(host.alloc, bytes, out),
        Inquiry::Decode => decode_input(host.alloc, bytes, out),
        _ => plan_input(host, asked, bytes, out, kept),
    }
}

// Reads the input, and answers what is asked of it.
fn read<R: Threads + Wait + Sync, S: Source, K: Sink, G: Gate>(
    host: &Host<R, G>,
    words: &[String],
    inquiry: Inquiry,
    src: &mut S,
    out: &mut K,
    kept: &mut Option<Fleet>,
) -> Status
    requires { kept.old ≡ None }
    ensures { (r : Reply)
        × IsReplyFor S.left S.handed S.ended S.faults src.old src.new
        (request_for (map string_bytes words.now) inquiry) r kept.new
        × WasGiven K.written K.faults out.old out.new r result
        × TellsRun (request_for (map string_bytes words.now) inquiry) r result }
{
    match read_all(host.alloc, src, LIMIT) {
        Ok(bytes) => judge(host, &Asked { words, inquiry }, &bytes, out, kept),
        Err(ReadAllFault::Failed) => Status::ReadFault,
        Err(ReadAllFault::OutOfMemory) => Status::OutOfMemory,
        Err(ReadAllFault::TooLong) => tell(out, b"refused input too long\n", Status::TooLong),
    }
}

// Answers the words.
fn answer<R: Threads + Wait + Sync, S: Source, K: Sink, G: Gate>(
    host: &Host<R, G>,
    words: &[String],
    src: &mut S,
    out: &mut K,
    kept: &mut Option<Fleet>,
) -> Status
    requires { kept.old ≡ None }
    ensures { (r : Reply)
        × IsReply S.left S.handed S.ended S.faults (map string_bytes words.now) src.old src.new r kept.new
        × WasGiven K.written K.faults out.old out.new r result
        × TellsItsRun (map string_bytes words.now) r result }
{
    let Some(task) = task_of(words) else {
        return tell_usage(out);
    };
    match task {
        Task::Load(what) => load(host, what, out, kept),
        Task::Of(inquiry) => read(host, words, inquiry, src, out, kept),
    }
}

/// Answers the words, those after the program's name. `run` reads a plan, runs its script and writes what each line
/// prints as it is done, or tells the plan's first fault; with `--trace` it prints nothing of that, and writes the
/// trace of the run in its place, one that `check` accepts; with `--watch` and a node's name it writes behind the
/// tables what a viewer of that node reads then, or alone that the plan has no such node. `load` with a seed and how
/// many nodes and calls reads nothing, runs the plan that is drawn from the seed, and writes after each part of its
/// script how many calls are in each state. `check` reads a trace, and writes that it is one of a run, of how many
/// events, and the run's last table; or that it is none, and the first index that is wrong; or the first fault of its
/// plan. `survey` reads a plan and runs it so, prints nothing of that, and writes the survey of its last table, or the
/// first fault. `route` and two names read a plan and write the least route between these nodes, its backup and the
/// potentials, or the first fault. `best` and two names read one and write the pair of disjoint routes with the least
/// total, or that there is none, and that its certificate was accepted, or the first fault. `decode` reads lines of
/// RSVP messages in hexadecimal and writes what each says. If the sink fails the status is `WriteFault`; after that and
/// after `OutOfMemory` a first part is written. After `Done` and `EventLimit` of `run`, `load` and `survey` the fleet
/// that made the run is kept, with its logs and posts. After `WriteFault` of a run it is that fleet as it stood once the
/// line was done whose text the sink refused. After `OutOfMemory` it is that fleet, which may have made rounds of one
/// line, or done it, beyond the text that was written, or none where nothing was. After all else none is kept.
pub fn ason<R: Threads + Wait + Sync, S: Source, K: Sink, G: Gate>(
    rt: &R,
    alloc: Global,
    words: &[String],
    src: &mut S,
    out: &mut K,
    gate: &G,
    kept: &mut Option<Fleet>,
) -> Status
    requires { kept.old ≡ None }
    ensures answer { (r : Reply)
        × IsReply S.left S.handed S.ended S.faults (map string_bytes words.now) src.old src.new r kept.new
        × WasGiven K.written K.faults out.old out.new r result
        × TellsItsRun (map string_bytes words.now) r result }
    ensures complete { IsComplete S.left S.faults K.faults (map string_bytes words.now)
        src.old src.new out.old out.new result }
    ensures loads { IsCompleteLoad K.faults (map string_bytes words.now) out.old out.new result }
    ensures checked { IsCheckedTrace K.written (map string_bytes words.now) out.old out.new result }
{
    every_check();
    answer(&Host { rt, alloc, gate }, words, src, out, kept)
}

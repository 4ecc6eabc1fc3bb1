//! What is answered of a plan that isn't run, of what is no plan, and of messages.

ghost use Rattle.std.specs.Prelude.{ℕ, true, List, Ok, Err, IfOk};
ghost use Rattle.ason_base.specs.Network.{IsTopology};
ghost use Rattle.commands.specs.Replies.{IsAskAnswered, IsDecodeAnswered, IsPlanRefused, IsTold};
ghost use Rattle.plan_reader.specs.Plans.{Answers, PlanOf};

use crate::status::Status;
use crate::tasks::Question;
use crate::telling::{refuse, tell};
use ason_base::OutOfMemory;
use ason_io::Sink;
use message_text::decode_text;
use plan_reader::{Plan, PlanError};
use std::alloc::Global;
use table_text::{best_text, route_text};

/// What `decode` answers of the input.
pub fn decode_input<K: Sink>(alloc: Global, bytes: &[u8], out: &mut K) -> Status
    ensures { IsDecodeAnswered K.written K.faults bytes.now out.old out.new result }
{
    match decode_text(alloc, bytes) {
        Ok(text) => tell(out, &text, Status::Done),
        Err(OutOfMemory) => Status::OutOfMemory,
    }
}

// What is told of the nodes of these names.
fn told(
    alloc: Global,
    plan: &Plan,
    question: Question,
    from: &str,
    to: &str,
) -> Result<Vec<u8>, OutOfMemory>
    requires { IsTopology plan.now.topology }
    ensures { IfOk result (λ text. IsTold question plan.now from.now to.now text.items) }
{
    match question {
        Question::Route => route_text(alloc, plan, from, to),
        Question::Best => best_text(alloc, plan, from, to),
    }
}

/// What `route` and `best` answer of a plan and the names of two nodes.
pub fn tell_ends<K: Sink>(
    alloc: Global,
    plan: &Plan,
    question: Question,
    from: &str,
    to: &str,
    out: &mut K,
) -> Status
    requires { IsTopology plan.now.topology }
    ensures { (bs : List ℕ) → PlanOf bs (Ok plan.now)
        → IsAskAnswered K.written K.faults question from.now to.now bs out.old out.new result }
{
    match told(alloc, plan, question, from, to) {
        Ok(text) => tell(out, &text, Status::Done),
        Err(OutOfMemory) => Status::OutOfMemory,
    }
}

/// Tells why there is no plan.
pub fn tell_error<K: Sink>(alloc: Global, error: PlanError, out: &mut K) -> Status
    ensures { (bs : List ℕ) → Answers true bs (Err error)
        → IsPlanRefused K.written K.faults bs out.old out.new result }
{
    match error {
        PlanError::Fault(fault) => refuse(alloc, fault, out),
        PlanError::OutOfMemory => Status::OutOfMemory,
    }
}

//! Writes what is told, and the status that this leads to.

ghost use Rattle.commands.specs.Replies.{Usage, WasTold, WasToldOrNothing, text_of_reply};
ghost use Rattle.table_text.specs.{EndsText.no_node_text, FaultText.refused_text, TableText.stopped_text};

use crate::status::Status;
use ason_base::{NodeId, OutOfMemory};
use ason_io::{Sink, write_all};
use plan_reader::{Plan, PlanFault};
use std::alloc::Global;
use table_text::{refused_text, unknown_text, write_stopped};

/// What is told of words that have no meaning.
const USAGE: &[u8] =
    b"usage: ason run [--workers N] [--stride T] [--trace | --watch NODE] | check | decode \
    | route FROM TO | load SEED NODES CALLS | best FROM TO | survey\n";

/// Writes the text. The status is this one, or that of a sink that failed.
pub fn tell<K: Sink>(out: &mut K, text: &[u8], status: Status) -> Status
    ensures { WasTold K.written K.faults out.old out.new text.now status result }
{
    match write_all(out, text) {
        Ok(()) => status,
        Err(_) => Status::WriteFault,
    }
}

/// Writes how the program is used.
pub fn tell_usage<K: Sink>(out: &mut K) -> Status
    ensures { WasTold K.written K.faults out.old out.new (text_of_reply Usage) Status.Usage result }
{
    tell(out, USAGE, Status::Usage)
}

/// Writes the line of the node at its limit.
pub fn tell_stop<K: Sink>(alloc: Global, plan: &Plan, node: NodeId, out: &mut K) -> Status
    ensures { WasToldOrNothing K.written K.faults out.old out.new
        (stopped_text plan.now node) Status.EventLimit result }
{
    let mut text = Vec::new(alloc);
    match write_stopped(alloc, &mut text, plan, node) {
        Ok(()) => tell(out, &text, Status::EventLimit),
        Err(OutOfMemory) => Status::OutOfMemory,
    }
}

/// Tells that the plan has no node of this name.
pub fn tell_unknown<K: Sink>(alloc: Global, name: &str, out: &mut K) -> Status
    ensures { WasToldOrNothing K.written K.faults out.old out.new
        (no_node_text name.now) Status.Done result }
{
    match unknown_text(alloc, name) {
        Ok(text) => tell(out, &text, Status::Done),
        Err(OutOfMemory) => Status::OutOfMemory,
    }
}

/// Tells the fault of what is no plan.
pub fn refuse<K: Sink>(alloc: Global, fault: PlanFault, out: &mut K) -> Status
    ensures { WasToldOrNothing K.written K.faults out.old out.new
        (refused_text fault) Status.PlanRefused result }
{
    match refused_text(alloc, fault) {
        Ok(text) => tell(out, &text, Status::PlanRefused),
        Err(OutOfMemory) => Status::OutOfMemory,
    }
}

//! Reads the trace of a run by its form.

ghost use Rattle.std.specs.Prelude.{◌≡◌, [], Err, IfErr, IfOk, Ok};
ghost use Rattle.ason_base.specs.Network.{IsTopology};
ghost use Rattle.plan_reader.specs.Plans.{ArePostable, HasNames};
ghost use Rattle.trace_text.specs.{Checks.IsFaultBy, TraceForms.form_of, TraceRead.{ReadsAs, trace_fault}, declared.read.TraceFault.TraceFault};

use crate::forms::{Head, form_of, head_of, plan_of};
use ason_base::{Bytes, Entry, Items, OutOfMemory};
use plan_reader::{Plan, PlanError, PlanFault};
use std::alloc::Global;

/// A list of entries.
pub type Entries = Items<Entry>;

/// A trace: its version, which is 1 or 2, the bytes of its plan, the plan, the entries, and the text between the lines
/// `table` and `end`.
pub struct Trace {
    pub version: u8,
    pub plan_bytes: Bytes,
    pub plan: Plan,
    pub entries: Entries,
    pub table: Bytes,
}

impl Drop for Trace {
    fn drop(self) {
        let Trace {
            version: _,
            plan_bytes: _,
            plan: _,
            entries: _,
            table: _,
        } = self;
    }
}

/// Why bytes aren't a trace.
#[derive(Drop)]
pub enum TraceFault {
    /// The first index that is wrong: 0 for the head and the line that tells how many entries there are, the number of
    /// an entry from 1, or one more than there are entries for what follows them.
    NotRun(u64),
    /// The first fault of the plan.
    Plan(PlanFault),
    OutOfMemory,
}

impl From<OutOfMemory> for TraceFault {
    ghost from_gives = { λ _ error. error ≡ TraceFault.OutOfMemory };

    fn from(_: OutOfMemory) -> TraceFault {
        TraceFault::OutOfMemory
    }
}

impl From<PlanError> for TraceFault {
    ghost use Rattle.trace_text.specs.TraceRead.{trace_fault};

    ghost from_gives = { λ error fault. fault ≡ trace_fault error };

    fn from(error: PlanError) -> TraceFault {
        match error {
            PlanError::Fault(fault) => TraceFault::Plan(fault),
            PlanError::OutOfMemory => TraceFault::OutOfMemory,
        }
    }
}

fn copy_bytes(alloc: Global, bytes: &[u8]) -> Result<Bytes, OutOfMemory>
    ensures { IfOk result (λ b. b ≡ bytes.now) }
{
    let copy = Vec::from_slice(alloc, bytes)?;
    Ok(Bytes::from_vec(copy))
}

fn copies(alloc: Global, plan: &[u8], table: &[u8]) -> Result<(Bytes, Bytes), OutOfMemory>
    ensures { IfOk result (λ b. b ≡ (plan.now, table.now)) }
{
    let plan = copy_bytes(alloc, plan)?;
    let table = copy_bytes(alloc, table)?;
    Ok((plan, table))
}

// What a trace has besides its version and its plan.
#[derive(Drop)]
pub struct Behind {
    plan_bytes: Bytes,
    entries: Entries,
    table: Bytes,
}

fn read_behind<'a>(alloc: Global, plan: &Plan, head: Head<'a>) -> Result<Behind, TraceFault>
    ensures form { IfOk result (λ b. form_of plan.now head.entry.rest.now ≡ Ok (b.entries, b.table)) }
    ensures bytes { IfOk result (λ b. b.plan_bytes ≡ head.entry.plan.now) }
    ensures wrong { IfErr result (IsFaultBy (λ i. form_of plan.now head.entry.rest.now ≡ Err i)) }
{
    let form = match form_of(alloc, plan, head.rest)? {
        Ok(form) => form,
        Err(i) => return Err(TraceFault::NotRun(i)),
    };
    let (plan_bytes, table) = copies(alloc, head.plan, form.table)?;
    Ok(Behind {
        plan_bytes,
        entries: Entries::from_vec(form.entries),
        table,
    })
}

/// Reads a trace by its form alone: every event counts as one that can happen, and every table as right. A fault of
/// the plan comes before whatever is wrong behind the plan. In a trace of version 1 no setup is two-way. The plan's
/// network is a topology, its lines can be posted one after the other, and each node and each call has its name.
pub fn read_trace(alloc: Global, bytes: &[u8]) -> Result<Trace, TraceFault>
    ensures reads { ReadsAs bytes.now result }
    ensures valid { IfOk result (λ t. IsTopology t.plan.topology) }
    ensures postable { IfOk result (λ t. ArePostable t.plan.topology [] t.plan.lines) }
    ensures named { IfOk result (λ t. HasNames t.plan) }
{
    let Some(head) = head_of(bytes) else {
        return Err(TraceFault::NotRun(0));
    };
    let plan = plan_of(alloc, head.version, head.plan)?;
    let behind = read_behind(alloc, &plan, head)?;
    Ok(Trace {
        version: head.version,
        plan_bytes: behind.plan_bytes,
        plan,
        entries: behind.entries,
        table: behind.table,
    })
}

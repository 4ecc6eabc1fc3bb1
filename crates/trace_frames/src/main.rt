//! A program that prints the frames which the nodes of a trace took, for the tools that read such frames.
//!
//! The standard input is a trace, as `ason run --trace` writes it, of at most 67,108,864 bytes. Its last table isn't
//! looked at. Printed is a line `NODE FROM NUMBER HEX` for each delivery, in the order of the trace: the node that took
//! the frame, the node that sent it, its number on that channel, and its bytes. The exit status is 0 if all was
//! printed. It is 1 if the input hasn't the form of a trace, its plan has a fault, or its events are no run. It is 2 if
//! the input can't be read or is too long, the output can't be written, or it is out of memory.
//!
//! - `lines_of`: of bytes that have the form of a trace, and whose events are a run of its plan, the line of each
//!   delivery. Its bytes are those of that frame in the world to which the run leads (`IsTold`).
//! - `events_of`: the events of the entries, in order. `frames_text`: the lines of these events in a given world.
//!
//! Tested: a stored run. In `tests/test_trace_tools.py` each message of a capture is one that `ason decode` reads.
//! Neither proved nor tested: that an input of which nothing is told is no trace.
#![tactic(auto)]

ghost use Rattle.std.specs.Prelude.{◌≡◌, IfOk, map};
ghost use Rattle.trace_frames.specs.Told.{IsTold};

mod told;

use ason_base::{Copied, Entry, Event, OutOfMemory};
use ason_io::{Sink, Source, StdSink, StdSource, read_all, write_all};
use std::alloc::Global;
use std::process::ExitCode;
use told::frames_text;
use trace_text::{TraceFault, read_trace};
use world_core::{ReplayError, replay};

/// The most bytes of a trace.
const LIMIT: usize = 67_108_864;

/// Why no frames are told.
#[derive(Clone, Copy, Drop)]
enum Fault {
    /// The bytes have not the form of a trace, or its events are no run.
    NotRun,
    /// They can't be read or written, or there is no memory.
    Failed,
}

impl Fault {
    /// The exit status of the process.
    fn code(self) -> u8 {
        match self {
            Fault::NotRun => 1,
            Fault::Failed => 2,
        }
    }
}

impl From<OutOfMemory> for Fault {
    fn from(_: OutOfMemory) -> Fault {
        Fault::Failed
    }
}

impl From<TraceFault> for Fault {
    fn from(fault: TraceFault) -> Fault {
        match fault {
            TraceFault::NotRun(_) | TraceFault::Plan(_) => Fault::NotRun,
            TraceFault::OutOfMemory => Fault::Failed,
        }
    }
}

impl From<ReplayError> for Fault {
    fn from(error: ReplayError) -> Fault {
        match error {
            ReplayError::NotRun(_) => Fault::NotRun,
            ReplayError::OutOfMemory => Fault::Failed,
        }
    }
}

// The events of the entries, in order.
fn events_of(alloc: Global, entries: &[Entry]) -> Result<Vec<Event>, OutOfMemory>
    ensures { IfOk result (λ events. events.items ≡ map (λ e. e.event) entries.now) }
{
    let mut events = Vec::new(alloc);
    for entry in entries {
        let event = entry.event.copy(alloc)?;
        events.push(event)?;
    }
    Ok(events)
}

// The lines of all deliveries of the trace that the bytes spell.
fn lines_of(alloc: Global, bytes: &[u8]) -> Result<Vec<u8>, Fault>
    ensures { IfOk result (λ text. IsTold bytes.now text.items) }
{
    let trace = read_trace(alloc, bytes)?;
    let events = events_of(alloc, trace.entries.items())?;
    let world = replay(alloc, &trace.plan.topology, &events)?;
    let text = frames_text(alloc, &trace.plan, &world, &events)?;
    Ok(text)
}

fn tell<S: Source, K: Sink>(alloc: Global, src: &mut S, out: &mut K) -> Result<(), Fault> {
    let Ok(bytes) = read_all(alloc, src, LIMIT) else {
        return Err(Fault::Failed);
    };
    let text = lines_of(alloc, &bytes)?;
    match write_all(out, &text) {
        Ok(()) => Ok(()),
        Err(_) => Err(Fault::Failed),
    }
}

fn main(rt: HostRuntime) -> ExitCode {
    let mut src = StdSource::new(rt.stdin().lock());
    let mut out = StdSink::new(rt.stdout());
    match tell(rt.alloc(), &mut src, &mut out) {
        Ok(()) => ExitCode::SUCCESS,
        Err(fault) => ExitCode::from(fault.code()),
    }
}

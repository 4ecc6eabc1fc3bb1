//! That stations run at the same time, and that a frame passes within a round: what no contract says.

use crate::networks::{A, B, nine, pair};
use ason_base::{CallNo, Command, Entry, Event, NodeId};
use ason_io::{Gate, MemSink, MemSource};
use ason_main::{Status, ason};
use fleet::Fleet;
use std::alloc::Global;
use std::sync::Wait;
use std::sync::atomic::{AtomicU64, Ordering};
use std::test::Fail;
use std::thread;
use std::thread::Threads;

/// How often a gate looks before it gives up.
pub(crate) const LOOKS: u64 = 10_000_000;

/// How often one looks that waits in vain.
const FEW: u64 = 1_000;

/// Room for whatever a run of the plan prints.
const ROOM: usize = 262_144;

/// The plan of one call over one link.
const PLAN: &str = r#"script = ["setup c1 a b unprotected"]
[[node]]
name = "a"
id = 1
[[node]]
name = "b"
id = 2
[[link]]
id = 1
ends = ["a", "b"]
labels = 1
"#;

/// The table in which the call stands.
const TABLE: &str = "calls 1 legs 2
call c1 a b bare a.1.1 - -
leg a.1.1 a work live - 1/1
leg a.1.1 b work live 1/1 -
";

/// Words behind the number of workers, and how what is printed begins and ends.
type Telling = (&'static [&'static str], &'static str, &'static str);

/// The table, the trace, and the table with the view of node a.
const TELLINGS: &[Telling] = &[
    (&[], TABLE, TABLE),
    (
        &["--trace"],
        "ason-trace 2\n",
        "leg a.1.1 b work live 1/1 -\nend\n",
    ),
    (&["--watch", "a"], TABLE, "leg a.1.1 a work live - 1/1\n"),
];

/// Holds each node at its first line until so many have arrived there.
#[derive(Drop)]
struct Meeting {
    wanted: u64,
    looks: u64,
    arrived: AtomicU64,
    gave_up: AtomicU64,
}

/// Holds node b at its first line until node a has come to its second.
#[derive(Drop)]
struct Handing {
    second: AtomicU64,
    gave_up: AtomicU64,
}

// Looks so often at most until the count is that high, or gives up and notes it.
pub(crate) fn hold(count: &AtomicU64, least: u64, looks: u64, gave_up: &AtomicU64) {
    for _ in 0..looks {
        if count.load(Ordering::SeqCst) >= least {
            return;
        }
        thread::yield_now();
    }
    gave_up.fetch_add(1, Ordering::SeqCst);
}

impl Meeting {
    // Nobody has arrived.
    fn new(wanted: u64, looks: u64) -> Meeting {
        Meeting {
            wanted,
            looks,
            arrived: AtomicU64::new(0),
            gave_up: AtomicU64::new(0),
        }
    }

    // How many nodes waited for the others in vain.
    fn in_vain(&self) -> u64 {
        self.gave_up.load(Ordering::SeqCst)
    }
}

impl Gate for Meeting {
    fn before(&self, _node: NodeId, entry: u64) {
        if entry == 1 {
            self.arrived.fetch_add(1, Ordering::SeqCst);
            hold(&self.arrived, self.wanted, self.looks, &self.gave_up);
        }
    }
}

impl Gate for Handing {
    fn before(&self, node: NodeId, entry: u64) {
        if node == A && entry == 2 {
            self.second.fetch_add(1, Ordering::SeqCst);
        }
        if node == B && entry == 1 {
            hold(&self.second, 1, LOOKS, &self.gave_up);
        }
    }
}

// A call from a to b is to be set up.
fn set_up(fleet: &mut Fleet) -> Result<(), Fail> {
    fleet.post(&Command::Setup {
        call: CallNo(1),
        from: A,
        to: B,
        protected: false,
        both: false,
        via: None,
        backup: None,
    })?;
    Ok(())
}

// The first frame of a comes to b.
fn is_first_frame(entry: &Entry) -> bool {
    match &entry.event {
        Event::Deliver { to, from, number } => (*to, *from, *number) == (B, A, 1),
        _ => false,
    }
}

// How often b waited in vain for a's second line, which is of the item on its desk, and whether a's first frame came to it
// in the same round.
fn hands_over<R: Threads + Wait + Sync>(
    rt: &R,
    alloc: Global,
    fleet: &mut Fleet,
) -> Result<(u64, bool), Fail> {
    set_up(fleet)?;
    let gate = Handing {
        second: AtomicU64::new(0),
        gave_up: AtomicU64::new(0),
    };
    fleet.round(rt, 2, 1, &gate)?;
    let came = fleet
        .merged(alloc)?
        .iter()
        .any(|entry| is_first_frame(entry));
    Ok((gate.gave_up.load(Ordering::SeqCst), came))
}

// Puts further words behind these.
fn push_words(alloc: Global, words: &mut Vec<String>, more: &[&str]) -> Result<(), Fail> {
    for word in more {
        words.push(String::from_str(alloc, *word)?)?;
    }
    Ok(())
}

// The words of a run on so many workers.
fn words_of(alloc: Global, workers: &str, more: &[&str]) -> Result<Vec<String>, Fail> {
    let mut words = Vec::new(alloc);
    push_words(alloc, &mut words, &["run", "--workers", workers])?;
    push_words(alloc, &mut words, more)?;
    Ok(words)
}

// Whether `ason` tells what it must of the plan on so many workers, and how many nodes waited for the other in vain, each
// with so many looks.
fn meet<R: Threads + Wait + Sync>(
    rt: &R,
    alloc: Global,
    workers: &str,
    looks: u64,
    telling: &Telling,
) -> Result<(bool, u64), Fail> {
    let (more, first, last) = telling;
    let words = words_of(alloc, workers, *more)?;
    let mut src = MemSource::new(PLAN.as_bytes().to_vec(alloc)?, Vec::new(alloc));
    let mut out = MemSink::new(alloc, ROOM, Vec::new(alloc));
    out.reserve(alloc, ROOM)?;
    let gate = Meeting::new(2, looks);
    let mut kept = None;
    let status = ason(rt, alloc, &words, &mut src, &mut out, &gate, &mut kept);
    if let Some(fleet) = kept {
        fleet.end(rt);
    }
    let written = out.written();
    let told = written.starts_with(first.as_bytes()) && written.ends_with(last.as_bytes());
    Ok((status == Status::Done && told, gate.in_vain()))
}

// A program that makes its rounds on one worker, however many are asked for, fails here, whatever it tells of the run: its
// nodes work one after the other, so the first waits in vain at its first line, as it does in the next test.
#[test]
fn two_workers_meet(rt: HostRuntime) -> Result<(), Fail> {
    for telling in TELLINGS {
        assert_eq!(rt; meet(&rt, rt.alloc(), "2", LOOKS, telling)?, (true, 0));
    }
    Ok(())
}

#[test]
fn one_worker_waits_in_vain(rt: HostRuntime) -> Result<(), Fail> {
    for telling in TELLINGS {
        assert_eq!(rt; meet(&rt, rt.alloc(), "1", FEW, telling)?, (true, 1));
    }
    Ok(())
}

#[test]
fn nine_nodes_have_eight_workers(rt: HostRuntime) -> Result<(), Fail> {
    let t = nine(rt.alloc())?;
    let mut fleet = Fleet::new(rt.alloc(), &t)?;
    let gate = Meeting::new(8, LOOKS);
    let made = fleet.round(&rt, 8, 1, &gate);
    fleet.end(&rt);
    assert_eq!(rt; (made?, gate.in_vain()), (9, 0));
    Ok(())
}

#[test]
fn a_frame_passes_within_a_round(rt: HostRuntime) -> Result<(), Fail> {
    let t = pair(rt.alloc())?;
    let mut fleet = Fleet::new(rt.alloc(), &t)?;
    let handed = hands_over(&rt, rt.alloc(), &mut fleet);
    fleet.end(&rt);
    assert_eq!(rt; handed?, (0, true));
    Ok(())
}

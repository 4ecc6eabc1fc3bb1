//! A source and a sink that fail at any of their calls.

use ason_io::{MemSink, MemSource, NoGate};
use ason_main::{Status, ason};
use std::alloc::Global;
use std::sync::Wait;
use std::test::Fail;
use std::thread::Threads;

/// More calls than the source and the sink have in a run.
const CALLS: u64 = 200;

/// A protected call over a triangle.
const PLAN: &str = r#"script = ["setup c1 a c"]
[[node]]
name = "a"
id = 1
[[node]]
name = "b"
id = 2
[[node]]
name = "c"
id = 3
[[link]]
id = 1
ends = ["a", "b"]
labels = 2
[[link]]
id = 2
ends = ["b", "c"]
labels = 2
[[link]]
id = 3
ends = ["a", "c"]
labels = 2
"#;

/// The table in which it stands with its backup.
const TABLE: &str = "calls 1 legs 5
call c1 a c guarded a.1.1 a.1.2 -
leg a.1.1 a work live - 3/1
leg a.1.1 c work live 3/1 -
leg a.1.2 a back held - 1/1
leg a.1.2 b back held 1/1 2/1
leg a.1.2 c back held 2/1 -
";

// What `run` comes to where the calls of the source and of the sink with these numbers fail, and what it writes.
fn run_with<R: Threads + Wait + Sync>(
    rt: &R,
    alloc: Global,
    reads: &[u64],
    writes: &[u64],
) -> Result<(Status, Vec<u8>), Fail> {
    let words = [String::from_str(alloc, "run")?];
    let mut src = MemSource::new(PLAN.as_bytes().to_vec(alloc)?, reads.to_vec(alloc)?);
    let mut out = MemSink::new(alloc, 5, writes.to_vec(alloc)?);
    out.reserve(alloc, TABLE.len())?;
    let mut kept = None;
    let status = ason(rt, alloc, &words, &mut src, &mut out, &NoGate, &mut kept);
    if let Some(fleet) = kept {
        fleet.end(rt);
    }
    Ok((status, out.written().to_vec(alloc)?))
}

// The table is written as a whole.
fn is_whole(status: Status, written: &[u8]) -> bool {
    status == Status::Done && written == TABLE.as_bytes()
}

#[test]
fn a_read_that_fails_writes_nothing(rt: HostRuntime) -> Result<(), Fail> {
    let mut failed = 0u64;
    for call in 1..CALLS {
        let (status, written) = run_with(&rt, rt.alloc(), &[call], &[])?;
        if is_whole(status, &written) {
            break;
        }
        assert!(rt; status == Status::ReadFault && written.is_empty());
        failed = call;
    }
    assert!(rt; 1 <= failed && failed < CALLS - 1);
    Ok(())
}

#[test]
fn a_write_that_fails_leaves_a_first_part(rt: HostRuntime) -> Result<(), Fail> {
    let mut failed = 0u64;
    for call in 1..CALLS {
        let (status, written) = run_with(&rt, rt.alloc(), &[], &[call])?;
        if is_whole(status, &written) {
            break;
        }
        assert!(rt; status == Status::WriteFault && TABLE.as_bytes().starts_with(&written));
        failed = call;
    }
    assert!(rt; 1 <= failed && failed < CALLS - 1);
    Ok(())
}

//! The program: `main` only, which passes words, threads, the standard input and the standard output to the top call.
//!
//! It has no clause. The promises are those of the top call in ason_main, here with a gate that holds nothing. A word
//! that isn't UTF-8 is answered as no word is, with the usage line.
//!
//! Tested by `tests/test_answers.py` over the built program: calls, tables, faults of each entry, limits, and inputs
//! and outputs that fail. The gate runs every command that the pages show, all examples, and 279 reference cases if the
//! folder `../shared` is there.
#![tactic(auto)]

use ason_io::{NoGate, StdSink, StdSource};
use ason_main::{Status, ason};
use std::env;
use std::io::ErrorKind;
use std::process::ExitCode;

fn main(rt: HostRuntime) -> ExitCode {
    let alloc = rt.alloc();
    let words = match env::args(&rt) {
        Ok(words) => words.skip(1).collect::<Vec<String>>(alloc).ok(),
        // A word that isn't UTF-8 has no meaning, and no words have none either.
        Err(fault) if fault.kind() == ErrorKind::InvalidData => Some(Vec::new(alloc)),
        Err(_) => None,
    };
    let Some(words) = words else {
        return ExitCode::from(Status::OutOfMemory.code());
    };
    let mut src = StdSource::new(rt.stdin().lock());
    let mut out = StdSink::new(rt.stdout());
    let mut kept = None;
    let status = ason(&rt, alloc, &words, &mut src, &mut out, &NoGate, &mut kept);
    if let Some(fleet) = kept {
        fleet.end(&rt);
    }
    ExitCode::from(status.code())
}

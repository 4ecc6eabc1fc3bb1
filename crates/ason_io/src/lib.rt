//! Sources and sinks of bytes, with a count of their faults.
//!
//! - `read_all`: with Ok the source was read to its end (`to_end`), and it gave no more bytes than the limit
//!   (`within`). `TooLong` comes exactly when one byte more than the limit was read (`too_long`). Any other error comes
//!   before that (`failed_within`, `memory_within`). `Failed` comes only if the source's count rose (`failed`).
//! - `write_all`: with Ok all bytes were appended in order (`all`). After `Failed` a proper prefix was (`prefix`), and
//!   the sink's count rose (`failed`). It takes no memory.
//! - `Source` and `Sink`: traits whose clauses say what each read and each write hands on.
//! - `MemSource` and `MemSink`: a source and a sink in memory, with exact contracts. The calls that are listed for them
//!   fail, and so does a write for which no room is left.
//! - `SureSource` and `SureSink`: these never fail (`never_fails`). `SureSink` drops what it takes.
//! - `StdSource` and `StdSink`: std's readers and writers behind the traits. A call that a signal interrupts is made
//!   again, up to 2^64 - 1 times, and is no fault. A call that fails does so for another reason (`other`).
//! - `Gate`: where a turn may be held before each entry that it makes in a log. `NoGate` holds none. A gate changes
//!   nothing that a contract sees.
//!
//! Tested: codec_tests read to the end, beyond a limit and with a failing second read, and write to sinks that take
//! five bytes, fail or have no room. Signals interrupt a reader and a writer of std. `tests/test_answers.py` has files,
//! a folder, and an input and an output that fail after a part.
//! Neither proved nor tested: what a file, a terminal or a pipe gave or took, beyond what std tells of it.
#![tactic(auto)]

pub mod adapters;
pub mod gate;
pub mod memory;
pub mod sink;
pub mod source;
pub mod sure;
pub mod whole;

pub use adapters::{StdSink, StdSource};
pub use gate::{Gate, NoGate};
pub use memory::{MemSink, MemSource};
pub use sink::Sink;
pub use source::{Failed, Source};
pub use sure::{SureSink, SureSource};
pub use whole::{ReadAllFault, read_all, write_all};

//! Adapters of std's readers and writers. What a file, a terminal or a pipe gave or took is told only as far as
//! std tells it.

ghost use Rattle.std.specs.{Prelude.{◌≡◌, ◌≢◌, ◌≤◌, ◌<◌, ◌↔◌, [], IfErr, IfOk, IsErr, IsTrue, OnErr, OnOk, length, take}, Io.KnownBytes.{Consumes, IsAtEnd, ReadConsumes, WriteAppends}, IoError.error_kind};
ghost use Rattle.ason_io.specs.{Faults.{Rose, counted}, Reading.{consumes_both, consumes_none}};

use crate::sink::Sink;
use crate::source::{Failed, Source};
use std::io;
use std::io::{ErrorKind, Read, Write};

// Whether a signal interrupted the call.
fn is_interrupted(fault: &io::Error) -> bool
    ensures { IsTrue result ↔ (error_kind fault.now ≡ ErrorKind.Interrupted) }
{
    fault.kind() == ErrorKind::Interrupted
}

// One read, which is made again where a signal interrupts it, up to 2^64 - 1 times.
fn read_again<I: Read>(reader: &mut I, buf: &mut [u8]) -> io::Result<usize>
    ensures fits { IfOk result (λ n. n ≤ length buf.new) }
    ensures bytes { ReadConsumes (I.remaining reader.old) (I.remaining reader.new) result buf.new }
    ensures other { IfErr result (λ fault. error_kind fault ≢ ErrorKind.Interrupted) }
{
    for _ in 0..u64::MAX {
        match reader.read(buf) {
            Ok(n) => return Ok(n),
            Err(fault) => {
                if !is_interrupted(&fault) {
                    return Err(fault);
                }
            }
        }
    }
    Err(io::Error::from(ErrorKind::TimedOut))
}

// One write, which is made again where a signal interrupts it, up to 2^64 - 1 times.
fn write_again<O: Write>(writer: &mut O, piece: &[u8]) -> io::Result<usize>
    ensures fits { IfOk result (λ n. n ≤ length piece.now) }
    ensures bytes { WriteAppends (O.contents writer.old) (O.contents writer.new) result piece.now }
    ensures other { IfErr result (λ fault. error_kind fault ≢ ErrorKind.Interrupted) }
{
    for _ in 0..u64::MAX {
        match writer.write(piece) {
            Ok(n) => return Ok(n),
            Err(fault) => {
                if !is_interrupted(&fault) {
                    return Err(fault);
                }
            }
        }
    }
    Err(io::Error::from(ErrorKind::TimedOut))
}

/// A reader of std. Each error of it is a fault and is counted, up to 2^64 - 1, but a read that a signal interrupts is
/// made again. Where std doesn't know the bytes to come, nothing is told of them, nor of what was handed out.
#[derive(Drop)]
pub struct StdSource<I: Read> {
    reader: I,
    faults: u64,
}

impl<I: Read> StdSource<I> {
    /// No fault has been counted.
    pub fn new(reader: I) -> StdSource<I>
        ensures left { ⟦<StdSource<I> as Source>⟧.left result ≡ I.remaining reader }
        ensures faults { ⟦<StdSource<I> as Source>⟧.faults result ≡ 0 }
    {
        StdSource { reader, faults: 0 }
    }
}

impl<I: Read> Source for StdSource<I> {
    ghost left = { λ s. I.remaining s.reader };

    ghost faults = { λ s. s.faults };

    ghost handed = { λ s bs t. Consumes (I.remaining s.reader) (I.remaining t.reader) bs };

    ghost ended = { λ s. IsAtEnd (I.remaining s.reader) };

    ghost rests = { λ s. consumes_none (I.remaining s.reader) };

    ghost goes_on = { λ s t u xs ys first then.
        consumes_both (I.remaining s.reader) (I.remaining t.reader) (I.remaining u.reader) xs ys first then };

    fn read(&mut self, buf: &mut [u8]) -> Result<usize, Failed>
        ensures fits { IfOk result (λ n. n ≤ length buf.old) }
        ensures bytes { ReadConsumes (I.remaining self.old.reader)
            (I.remaining self.new.reader) result buf.new }
        ensures hands { IfOk result (λ n. Consumes (I.remaining self.old.reader)
            (I.remaining self.new.reader) (take n buf.new)) }
        ensures end { IfOk result (λ n. n ≡ 0 → 0 < length buf.old
            → IsAtEnd (I.remaining self.new.reader)) }
        ensures kept { OnErr result (Consumes (I.remaining self.old.reader)
            (I.remaining self.new.reader) []) }
        ensures failed { IsErr result → Rose self.old.faults self.new.faults }
        ensures rises { self.old.faults ≤ self.new.faults }

        // Each error is counted, and nothing else.
        ensures counts { OnErr result (self.new.faults ≡ counted self.old.faults) }
        ensures counts_no_more { OnOk result (self.new.faults ≡ self.old.faults) }
    {
        match read_again(&mut self.reader, buf) {
            Ok(n) => Ok(n),
            Err(_) => {
                self.faults = self.faults.saturating_add(1);
                Err(Failed)
            }
        }
    }
}

/// A writer of std. Each error of it is a fault and is counted, up to 2^64 - 1, and so is a write that takes nothing
/// of a piece that isn't empty. A write that a signal interrupts is made again.
#[derive(Drop)]
pub struct StdSink<O: Write> {
    writer: O,
    faults: u64,
}

impl<O: Write> StdSink<O> {
    /// No fault has been counted.
    pub fn new(writer: O) -> StdSink<O>
        ensures written { ⟦<StdSink<O> as Sink>⟧.written result ≡ O.contents writer }
        ensures faults { ⟦<StdSink<O> as Sink>⟧.faults result ≡ 0 }
    {
        StdSink { writer, faults: 0 }
    }
}

impl<O: Write> Sink for StdSink<O> {
    ghost written = { λ s. O.contents s.writer };

    ghost faults = { λ s. s.faults };

    fn write(&mut self, piece: &[u8]) -> Result<usize, Failed>
        ensures fits { IfOk result (λ n. n ≤ length piece.now) }
        ensures bytes { WriteAppends (O.contents self.old.writer)
            (O.contents self.new.writer) result piece.now }
        ensures some { IfOk result (λ n. n ≡ 0 → piece.now ≡ []) }
        ensures failed { IsErr result → Rose self.old.faults self.new.faults }
        ensures rises { self.old.faults ≤ self.new.faults }

        // Each error is counted, and nothing else.
        ensures counts { OnErr result (self.new.faults ≡ counted self.old.faults) }
        ensures counts_no_more { OnOk result (self.new.faults ≡ self.old.faults) }
    {
        match write_again(&mut self.writer, piece) {
            Ok(n) if n > 0 || piece.is_empty() => Ok(n),
            _ => {
                self.faults = self.faults.saturating_add(1);
                Err(Failed)
            }
        }
    }
}

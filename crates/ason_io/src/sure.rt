//! A source and a sink that never fail.

ghost use Rattle.std.specs.{Prelude.{◌≡◌, ◌≤◌, ◌<◌, ◌++◌, [], Some, None, IfOk, IsErr, IsOk, OnErr, length, min, take, drop}, Io.KnownBytes.{ReadConsumes, WriteAppends}};
ghost use Rattle.ason_io.specs.{Faults.Rose, Reading.{consumes_both, consumes_none}};

use crate::sink::Sink;
use crate::source::{Failed, Source};
use std::marker::Model;

/// A source that hands out the bytes it was made of, as many as fit at each read, and never fails.
pub struct SureSource {
    bytes: Vec<u8>,
    at: usize,
}

impl Model for SureSource {
    ghost use Rattle.std.specs.Prelude.{◌≤◌, List, ℕ, drop, vec_len};

    // the bytes still to come
    ghost Value = { List ℕ };

    ghost view = { λ s. drop s.at s.bytes.items };

    ghost invariant = { λ s. s.at ≤ vec_len s.bytes };
}

impl SureSource {
    /// All of these bytes are still to come.
    pub fn new(bytes: Vec<u8>) -> SureSource
        ensures { result ≡ bytes.items }
    {
        SureSource { bytes, at: 0 }
    }
}

impl Source for SureSource {
    ghost use Rattle.std.specs.Io.KnownBytes.{Consumes, IsAtEnd};

    ghost left = { λ s. Some s };

    ghost faults = { λ _. 0 };

    ghost handed = { λ s bs t. Consumes (Some s) (Some t) bs };

    ghost ended = { λ s. IsAtEnd (Some s) };

    ghost rests = { λ s. consumes_none (Some s) };

    ghost goes_on = { λ s t u xs ys first then. consumes_both (Some s) (Some t) (Some u) xs ys first then };

    fn read(&mut self, buf: &mut [u8]) -> Result<usize, Failed>
        ensures fits { IfOk result (λ n. n ≤ length buf.old) }
        ensures bytes { ReadConsumes (Some self.old) (Some self.new) result buf.new }
        ensures hands { IfOk result (λ n. Consumes (Some self.old) (Some self.new)
            (take n buf.new)) }
        ensures end { IfOk result (λ n. n ≡ 0 → 0 < length buf.old → IsAtEnd (Some self.new)) }
        ensures kept { OnErr result (Consumes (Some self.old) (Some self.new) []) }
        ensures failed { IsErr result → Rose 0 0 }
        ensures rises { 0 ≤ 0 }

        ensures never_fails { IsOk result }
        ensures count { IfOk result (λ n. n ≡ min (length self.old) (length buf.old)) }
        ensures given { IfOk result (λ n. buf.new ≡ take n self.old ++ drop n buf.old) }
        ensures rest { IfOk result (λ n. self.new ≡ drop n self.old) }
    {
        let left = &self.bytes.as_slice()[self.at..];
        let n = left.len().min(buf.len());
        buf[..n].copy_from_slice(&left[..n]);
        self.at += n;
        Ok(n)
    }
}

impl Drop for SureSource {
    fn drop(self) {
        let SureSource { bytes: _, at: _ } = self;
    }
}

/// A sink that drops what it takes, tells nothing of it and never fails.
#[derive(Clone, Copy, Drop)]
pub struct SureSink;

impl SureSink {
    pub fn new() -> SureSink {
        SureSink
    }
}

impl Sink for SureSink {
    ghost written = { λ _. None };

    ghost faults = { λ _. 0 };

    fn write(&mut self, piece: &[u8]) -> Result<usize, Failed>
        ensures fits { IfOk result (λ n. n ≤ length piece.now) }
        ensures bytes { WriteAppends None None result piece.now }
        ensures some { IfOk result (λ n. n ≡ 0 → piece.now ≡ []) }
        ensures failed { IsErr result → Rose 0 0 }
        ensures rises { 0 ≤ 0 }

        ensures never_fails { IsOk result }
        ensures count { IfOk result (λ n. n ≡ length piece.now) }
    {
        Ok(piece.len())
    }
}

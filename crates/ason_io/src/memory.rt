//! A source and a sink in memory, of which chosen calls fail.

ghost use Rattle.std.specs.{Prelude.{◌≡◌, ◌≤◌, ◌<◌, ◌↔◌, ◌⊎◌, ◌++◌, ◌-◌, [], Some, Contains, IfOk, IsErr, IsTrue, OnErr, OnOk, length, max, min, take, drop}, Io.KnownBytes.{ReadConsumes, WriteAppends}};
ghost use Rattle.ason_io.specs.{Faults.{Rose, counted}, Reading.{consumes_both, consumes_none}};

use crate::sink::Sink;
use crate::source::{Failed, Source};
use crate::sure::SureSource;
use ason_base::OutOfMemory;
use std::alloc::Global;
use std::marker::Model;

/// The calls that fail, by number from 1, the calls so far and the faults so far.
struct Failures {
    listed: Vec<u64>,
    calls: u64,
    faults: u64,
}

impl Failures {
    fn new(listed: Vec<u64>) -> Failures
        ensures { result ≡ record { listed = listed; calls = 0; faults = 0 } }
    {
        Failures {
            listed,
            calls: 0,
            faults: 0,
        }
    }

    /// Counts a call. Is it one that fails?
    fn begin_call(&mut self) -> bool
        ensures counts { self.new ≡ record self.old { calls = counted self.old.calls } }
        ensures listed { IsTrue result ↔ Contains self.old.listed.items (counted self.old.calls) }
    {
        self.calls = self.calls.saturating_add(1);
        self.listed.contains(&self.calls)
    }

    /// Counts a fault.
    fn fail(&mut self) -> Failed
        ensures counts { self.new ≡ record self.old { faults = counted self.old.faults } }
        ensures rises { self.old.faults ≤ self.new.faults }
    {
        self.faults = self.faults.saturating_add(1);
        Failed
    }
}

impl Drop for Failures {
    fn drop(self) {
        let Failures {
            listed: _,
            calls: _,
            faults: _,
        } = self;
    }
}

/// A source that hands out the bytes it was made of. The listed calls fail, and every other hands out as many
/// bytes as fit.
pub struct MemSource {
    rest: SureSource,
    failures: Failures,
}

impl Model for MemSource {
    ghost use Rattle.ason_io.specs.Memory.{SourceState};

    ghost Value = { SourceState };

    ghost view = { λ s. record {
      left = s.rest;
      failing = s.failures.listed.items;
      calls = s.failures.calls;
      faults = s.failures.faults;
    } };
}

impl MemSource {
    /// All of these bytes are still to come. `failing` lists the calls, from 1, that fail.
    pub fn new(bytes: Vec<u8>, failing: Vec<u64>) -> MemSource
        ensures { result
            ≡ record { left = bytes.items; failing = failing.items; calls = 0; faults = 0 } }
    {
        MemSource {
            rest: SureSource::new(bytes),
            failures: Failures::new(failing),
        }
    }
}

impl Source for MemSource {
    ghost use Rattle.std.specs.Io.KnownBytes.{Consumes, IsAtEnd};

    ghost left = { λ s. Some s.left };

    ghost faults = { λ s. s.faults };

    ghost handed = { λ s bs t. Consumes (Some s.left) (Some t.left) bs };

    ghost ended = { λ s. IsAtEnd (Some s.left) };

    ghost rests = { λ s. consumes_none (Some s.left) };

    ghost goes_on = { λ s t u xs ys first then.
        consumes_both (Some s.left) (Some t.left) (Some u.left) xs ys first then };

    fn read(&mut self, buf: &mut [u8]) -> Result<usize, Failed>
        ensures fits { IfOk result (λ n. n ≤ length buf.old) }
        ensures bytes { ReadConsumes (Some self.old.left) (Some self.new.left) result buf.new }
        ensures hands { IfOk result (λ n. Consumes (Some self.old.left) (Some self.new.left)
            (take n buf.new)) }
        ensures end { IfOk result (λ n. n ≡ 0 → 0 < length buf.old → IsAtEnd (Some self.new.left)) }
        ensures kept { OnErr result (Consumes (Some self.old.left) (Some self.new.left) []) }
        ensures failed { IsErr result → Rose self.old.faults self.new.faults }
        ensures rises { self.old.faults ≤ self.new.faults }

        ensures listed { IsErr result ↔ Contains self.old.failing (counted self.old.calls) }
        ensures count { IfOk result (λ n. n ≡ min (length self.old.left) (length buf.old)) }
        ensures given { IfOk result (λ n. buf.new ≡ take n self.old.left ++ drop n buf.old) }
        ensures after { IfOk result (λ n. self.new
            ≡ record self.old { left = drop n self.old.left; calls = counted self.old.calls }) }
        ensures after_fault { OnErr result (self.new
            ≡ record self.old { calls = counted self.old.calls; faults = counted self.old.faults }) }
        ensures buffer { OnErr result (buf.new ≡ buf.old) }
    {
        if self.failures.begin_call() {
            return Err(self.failures.fail());
        }
        self.rest.read(buf)
    }
}

impl Drop for MemSource {
    fn drop(self) {
        let MemSource {
            rest: _,
            failures: _,
        } = self;
    }
}

/// A sink that keeps what it takes. The listed calls fail, and so does a call for whose bytes no room is left.
pub struct MemSink {
    bytes: Vec<u8>,
    room: usize,
    most: usize,
    failures: Failures,
}

impl Model for MemSink {
    ghost use Rattle.std.specs.Prelude.{◌≤◌, ◌+◌, vec_capacity, vec_len};
    ghost use Rattle.ason_io.specs.Memory.{SinkState};

    ghost Value = { SinkState };

    ghost view = { λ s. record {
      written = s.bytes.items;
      room = s.room;
      most = s.most;
      failing = s.failures.listed.items;
      calls = s.failures.calls;
      faults = s.failures.faults;
    } };

    ghost invariant = { λ s. (vec_len s.bytes + s.room ≤ vec_capacity s.bytes) × (1 ≤ s.most) };
}

impl MemSink {
    /// Nothing is written, and no room is left. A call takes at most `most` bytes. `failing` lists the calls,
    /// from 1, that fail.
    pub fn new(alloc: Global, most: usize, failing: Vec<u64>) -> MemSink
        requires { 1 ≤ most }
        ensures { result
            ≡ record { written = []; room = 0; most = most; failing = failing.items; calls = 0; faults = 0 } }
    {
        MemSink {
            bytes: Vec::new(alloc),
            room: 0,
            most,
            failures: Failures::new(failing),
        }
    }

    /// Reserves memory, so that room for at least n bytes is left.
    pub fn reserve(&mut self, _alloc: Global, n: usize) -> Result<(), OutOfMemory>
        ensures ok { OnOk result (self.new ≡ record self.old { room = max self.old.room n }) }
        ensures err { OnErr result (self.new ≡ self.old) }
    {
        self.bytes.reserve(n)?;
        self.room = self.room.max(n);
        Ok(())
    }

    /// The bytes that were written.
    pub fn written(&self) -> &[u8]
        ensures { result.now ≡ self.now.written }
    {
        &self.bytes
    }
}

impl Sink for MemSink {
    ghost written = { λ s. Some s.written };

    ghost faults = { λ s. s.faults };

    fn write(&mut self, piece: &[u8]) -> Result<usize, Failed>
        ensures fits { IfOk result (λ n. n ≤ length piece.now) }
        ensures bytes { WriteAppends (Some self.old.written)
            (Some self.new.written) result piece.now }
        ensures some { IfOk result (λ n. n ≡ 0 → piece.now ≡ []) }
        ensures failed { IsErr result → Rose self.old.faults self.new.faults }
        ensures rises { self.old.faults ≤ self.new.faults }

        ensures fails { IsErr result ↔ (Contains self.old.failing (counted self.old.calls)
            ⊎ (self.old.room < min (length piece.now) self.old.most)) }
        ensures count { IfOk result (λ n. n ≡ min (length piece.now) self.old.most) }
        ensures after { IfOk result (λ n. self.new ≡ record self.old {
          written = self.old.written ++ take n piece.now;
          room = self.old.room - n;
          calls = counted self.old.calls;
        }) }
        ensures after_fault { OnErr result (self.new
            ≡ record self.old { calls = counted self.old.calls; faults = counted self.old.faults }) }
    {
        let n = piece.len().min(self.most);
        let listed = self.failures.begin_call();
        if listed || self.room < n {
            return Err(self.failures.fail());
        }
        self.bytes.extend_from_slice(&piece[..n]).unwrap();
        self.room -= n;
        Ok(n)
    }
}

impl Drop for MemSink {
    fn drop(self) {
        let MemSink {
            bytes: _,
            room: _,
            most: _,
            failures: _,
        } = self;
    }
}

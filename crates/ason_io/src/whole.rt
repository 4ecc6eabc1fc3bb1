//! Reads a source to its end, and writes all of a list of bytes.

ghost use Rattle.std.specs.{Prelude.{◌≡◌, ◌≤◌, ◌<◌, ◌+◌, ℕ, IfOk, IfSome, IsErr, IsErrOf, OnErr, OnOk, length, take}, Io.KnownBytes.Appends};
ghost use Rattle.ason_io.specs.{Faults.Rose, Reading.{HasRead, WasReadToEnd}, declared.whole.ReadAllFault.TheVariants.{Failed as ReadFailed, OutOfMemory as NoMemory}};

use crate::sink::Sink;
use crate::source::{Failed, Source};
use std::alloc::{AllocError, Global};
use thiserror::Error;

/// The most bytes that one read asks for.
const PIECE: usize = 8192;

/// Why a source wasn't read to its end.
#[derive(Clone, Copy, Debug, PartialEq, Eq, Drop, Error)]
pub enum ReadAllFault {
    #[error("the source failed")]
    Failed,
    #[error("the source has more bytes than are allowed")]
    TooLong,
    #[error("out of memory")]
    OutOfMemory,
}

impl From<Failed> for ReadAllFault {
    ghost from_gives = { λ _ e. e ≡ ReadFailed };

    fn from(_: Failed) -> ReadAllFault {
        ReadAllFault::Failed
    }
}

impl From<AllocError> for ReadAllFault {
    ghost from_gives = { λ _ e. e ≡ NoMemory };

    fn from(_: AllocError) -> ReadAllFault {
        ReadAllFault::OutOfMemory
    }
}

/// Reads the source to its end, if that comes after at most `limit` bytes. It stops at a read that fails, after
/// `limit` + 1 bytes and for want of memory.
pub fn read_all<S: Source>(
    alloc: Global,
    src: &mut S,
    limit: usize,
) -> Result<Vec<u8>, ReadAllFault>
    ensures to_end { IfOk result
        (λ v. WasReadToEnd S.left S.handed S.ended src.old src.new v.items) }
    ensures within { IfOk result (λ v. length v.items ≤ limit) }

    // TooLong comes exactly where `limit` + 1 bytes were read.
    ensures too_long { IsErrOf result ReadAllFault.TooLong
        → HasRead S.left S.handed src.old src.new (λ n. n ≡ limit + 1) }
    ensures failed_within { IsErrOf result ReadAllFault.Failed
        → HasRead S.left S.handed src.old src.new (λ n. n ≤ limit) }
    ensures memory_within { IsErrOf result ReadAllFault.OutOfMemory
        → HasRead S.left S.handed src.old src.new (λ n. n ≤ limit) }
    ensures too_long_told { IsErrOf result ReadAllFault.TooLong
        → IfSome (S.left src.old) (λ all. limit < length all) }

    ensures failed { IsErrOf result ReadAllFault.Failed
        → Rose (S.faults src.old) (S.faults src.new) }
    ensures rises { S.faults src.old ≤ S.faults src.new }
{
    let mut out = Vec::new(alloc);
    let mut buf = [0u8; PIECE];
    'reading: while out.len() <= limit {
        let room = (limit - out.len()).min(PIECE - 1) + 1;
        out.reserve(room)?;
        let n = src.read(&mut buf[..room])?;
        if n == 0 {
            return Ok(out);
        }
        out.extend_from_slice(&buf[..n]).unwrap();
    }
    Err(ReadAllFault::TooLong)
}

/// Writes all of these bytes, and takes no memory. After `Failed` the first of them were written, and not all.
pub fn write_all<K: Sink>(out: &mut K, bytes: &[u8]) -> Result<(), Failed>
    ensures all { OnOk result (Appends (K.written out.old) (K.written out.new) bytes.now) }
    ensures prefix { OnErr result ((n : ℕ) × (n < length bytes.now)
        × Appends (K.written out.old) (K.written out.new) (take n bytes.now)) }
    ensures failed { IsErr result → Rose (K.faults out.old) (K.faults out.new) }
    ensures rises { K.faults out.old ≤ K.faults out.new }
{
    let mut done = 0;
    'writing: while done < bytes.len() {
        done += out.write(&bytes[done..])?;
    }
    Ok(())
}

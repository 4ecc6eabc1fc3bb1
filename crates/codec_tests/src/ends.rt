//! Sources and sinks in memory: all that they have, and faults in mid-stream; and calls of std that signals interrupt.

use ason_io::{
    MemSink, MemSource, ReadAllFault, StdSink, StdSource, SureSink, SureSource, read_all, write_all,
};
use std::alloc::Global;
use std::io;
use std::io::{ErrorKind, Read, Write};
use std::test::Fail;

const LINE: &[u8] = b"calls 0\n";

fn is_read(alloc: Global) -> Result<bool, Fail> {
    let mut sure = SureSource::new(LINE.to_vec(alloc)?);
    Ok(read_all(alloc, &mut sure, 8)?.as_slice() == LINE)
}

// Why so many bytes aren't read to their end by a source that fails at these calls.
fn fault(alloc: Global, failing: &[u64], most: usize) -> Result<Option<ReadAllFault>, Fail> {
    let mut source = MemSource::new(LINE.to_vec(alloc)?, failing.to_vec(alloc)?);
    Ok(read_all(alloc, &mut source, most).err())
}

// A read tells the end apart from the last bytes, so a source of one piece is read twice.
#[test]
fn a_source_is_read_to_its_end(rt: HostRuntime) -> Result<(), Fail> {
    let alloc = rt.alloc();
    assert!(rt; is_read(alloc)?);
    assert!(rt; fault(alloc, &[2], 8)? == Some(ReadAllFault::Failed));
    assert!(rt; fault(alloc, &[], 7)? == Some(ReadAllFault::TooLong));
    Ok(())
}

// Whether a sink that takes five bytes at a time and fails at these calls takes just these of the line,
// and has room then.
fn takes(alloc: Global, failing: &[u64], taken: &[u8], room: bool) -> Result<bool, Fail> {
    let mut sink = MemSink::new(alloc, 5, failing.to_vec(alloc)?);
    sink.reserve(alloc, 8)?;
    let whole = write_all(&mut sink, LINE).is_ok();
    let written = sink.written() == taken;
    Ok(written && whole != room && write_all(&mut sink, b"!").is_ok() == room)
}

#[test]
fn a_sink_takes_a_prefix(rt: HostRuntime) -> Result<(), Fail> {
    assert!(rt; takes(rt.alloc(), &[2], b"calls", true)?);
    assert!(rt; takes(rt.alloc(), &[], LINE, false)?);
    assert!(rt; write_all(&mut SureSink::new(), LINE).is_ok());
    Ok(())
}

/// A reader of these bytes and a writer, of one byte a call. A signal interrupts the first call, and then every second.
struct Interrupted {
    bytes: Vec<u8>,
    at: usize,
    interrupted: bool,
}

impl Interrupted {
    fn new(bytes: Vec<u8>) -> Interrupted {
        Interrupted {
            bytes,
            at: 0,
            interrupted: false,
        }
    }

    // Begins a call.
    fn call(&mut self) -> io::Result<()> {
        self.interrupted = !self.interrupted;
        if self.interrupted {
            return Err(io::Error::from(ErrorKind::Interrupted));
        }
        Ok(())
    }
}

impl Drop for Interrupted {
    fn drop(self) {
        let Interrupted {
            bytes: _,
            at: _,
            interrupted: _,
        } = self;
    }
}

impl Read for Interrupted {
    fn read(&mut self, buf: &mut [u8]) -> io::Result<usize> {
        self.call()?;
        match (self.bytes.get(self.at), buf.first_mut()) {
            (Some(byte), Some(room)) => {
                *room = *byte;
                self.at = self.at.saturating_add(1);
                Ok(1)
            }
            _ => Ok(0),
        }
    }
}

impl Write for Interrupted {
    fn write(&mut self, buf: &[u8]) -> io::Result<usize> {
        self.call()?;
        let Some(byte) = buf.first() else {
            return Ok(0);
        };
        self.bytes.push(*byte)?;
        Ok(1)
    }

    fn flush(&mut self) -> io::Result<()> {
        Ok(())
    }
}

#[test]
fn an_interrupted_read_is_no_fault(rt: HostRuntime) -> Result<(), Fail> {
    let alloc = rt.alloc();
    let mut source = StdSource::new(Interrupted::new(LINE.to_vec(alloc)?));
    assert!(rt; read_all(alloc, &mut source, 8)?.as_slice() == LINE);
    Ok(())
}

#[test]
fn an_interrupted_write_is_no_fault(rt: HostRuntime) -> Result<(), Fail> {
    let mut sink = StdSink::new(Interrupted::new(Vec::new(rt.alloc())));
    assert!(rt; write_all(&mut sink, LINE).is_ok());
    Ok(())
}

//! Writing fields at the end of bytes.

ghost use Rattle.std.specs.Prelude.{◌≡◌, ◌<◌, ◌≤◌, ◌+◌, ◌^◌, ◌++◌, length, vec_len, vec_capacity};
ghost use Rattle.byteorder.specs.Endian.{big_bytes};
ghost use Rattle.wire_buf.specs.Codecs.{AppendsBytes};

use ason_base::OutOfMemory;
use byteorder::{BigEndian, ByteOrder};

/// Appends a byte.
pub fn push_u8(out: &mut Vec<u8>, n: u8) -> Result<(), OutOfMemory>
    ensures { AppendsBytes out.old out.new (big_bytes 1 n) result }
{
    out.reserve(1)?;
    put_u8(out, n);
    Ok(())
}

/// Appends a number as two bytes.
pub fn push_u16(out: &mut Vec<u8>, n: u16) -> Result<(), OutOfMemory>
    ensures { AppendsBytes out.old out.new (big_bytes 2 n) result }
{
    out.reserve(2)?;
    put_u16(out, n);
    Ok(())
}

/// Appends a number as three bytes.
pub fn push_u24(out: &mut Vec<u8>, n: u32) -> Result<(), OutOfMemory>
    requires { n < 2 ^ 24 }
    ensures { AppendsBytes out.old out.new (big_bytes 3 n) result }
{
    out.reserve(3)?;
    put_u24(out, n);
    Ok(())
}

/// Appends a number as four bytes.
pub fn push_u32(out: &mut Vec<u8>, n: u32) -> Result<(), OutOfMemory>
    ensures { AppendsBytes out.old out.new (big_bytes 4 n) result }
{
    out.reserve(4)?;
    put_u32(out, n);
    Ok(())
}

// Appends bytes that there is room for.
fn put(out: &mut Vec<u8>, field: &[u8])
    requires { vec_len out.old + length field.now ≤ vec_capacity out.old }
    ensures items { out.new.items ≡ out.old.items ++ field.now }
    ensures len { vec_len out.new ≡ vec_len out.old + length field.now }
    ensures capacity { vec_capacity out.old ≤ vec_capacity out.new }
{
    for byte in field {
        out.push_reserved(*byte);
    }
}

/// Appends a byte in the room that is reserved.
pub fn put_u8(out: &mut Vec<u8>, n: u8)
    requires { vec_len out.old + 1 ≤ vec_capacity out.old }
    ensures items { out.new.items ≡ out.old.items ++ big_bytes 1 n }
    ensures len { vec_len out.new ≡ vec_len out.old + 1 }
    ensures capacity { vec_capacity out.old ≤ vec_capacity out.new }
{
    put(out, &[n]);
}

/// Appends a number as two bytes in the room that is reserved.
pub fn put_u16(out: &mut Vec<u8>, n: u16)
    requires { vec_len out.old + 2 ≤ vec_capacity out.old }
    ensures items { out.new.items ≡ out.old.items ++ big_bytes 2 n }
    ensures len { vec_len out.new ≡ vec_len out.old + 2 }
    ensures capacity { vec_capacity out.old ≤ vec_capacity out.new }
{
    let mut field = [0u8; 2];
    BigEndian::write_u16(&mut field, n);
    put(out, &field);
}

/// Appends a number as three bytes in the room that is reserved.
pub fn put_u24(out: &mut Vec<u8>, n: u32)
    requires room { vec_len out.old + 3 ≤ vec_capacity out.old }
    requires small { n < 2 ^ 24 }
    ensures items { out.new.items ≡ out.old.items ++ big_bytes 3 n }
    ensures len { vec_len out.new ≡ vec_len out.old + 3 }
    ensures capacity { vec_capacity out.old ≤ vec_capacity out.new }
{
    let mut field = [0u8; 3];
    BigEndian::write_u24(&mut field, n);
    put(out, &field);
}

/// Appends a number as four bytes in the room that is reserved.
pub fn put_u32(out: &mut Vec<u8>, n: u32)
    requires { vec_len out.old + 4 ≤ vec_capacity out.old }
    ensures items { out.new.items ≡ out.old.items ++ big_bytes 4 n }
    ensures len { vec_len out.new ≡ vec_len out.old + 4 }
    ensures capacity { vec_capacity out.old ≤ vec_capacity out.new }
{
    let mut field = [0u8; 4];
    BigEndian::write_u32(&mut field, n);
    put(out, &field);
}

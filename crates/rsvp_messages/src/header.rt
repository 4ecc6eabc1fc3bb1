//! The common header (RFC 2205, section 3.1.1).

ghost use Rattle.std.specs.Prelude.{◌≡◌, ◌≤◌, ◌<◌, ◌^◌, ◌++◌, ℕ, List, Some, false, length, slice_index, IfSome, OnOk, IsTrue};
ghost use Rattle.rsvp_messages.specs.{Headers.{HasChecksum, HasHeader}, Written.{header_bytes, message}};

use ason_base::OutOfMemory;
use byteorder::{BigEndian, ByteOrder};
use wire_buf::internet_checksum;

/// How many bytes the header takes.
pub(crate) const HEADER: usize = 8;

/// The first byte that is written: version 1, flags 1.
const VERSION_AND_FLAGS: u8 = 0x11;

const SEND_TTL: u8 = 1;

// A right field makes the checksum of the whole 0. So would 0xFFFF where 0 is right, which is no checksum of any
// message.
fn has_checksum(bytes: &[u8]) -> bool
    requires long { 4 ≤ length bytes.now }
    requires some { 0 < slice_index bytes.now 0 }
    ensures yes { IsTrue result → HasChecksum bytes.now }
    ensures no { result ≡ false → ¬ HasChecksum bytes.now }
{
    let field = BigEndian::read_u16(&bytes[2..]);
    field == 0 || (field != 0xFFFF && internet_checksum(bytes) == 0)
}

/// The type of a message by its header. None exactly where the header is none of these bytes: a version other than 1, a
/// length other than the number of bytes, or a checksum that is neither 0 nor right.
pub(crate) fn read_header(bytes: &[u8]) -> Option<u8>
    ensures found { IfSome result (HasHeader bytes.now) }
    ensures short { IfSome result (λ _. length bytes.now < 2 ^ 16) }
    ensures only { (kind : ℕ) → HasHeader bytes.now kind → result ≡ Some kind }
{
    if bytes.len() < HEADER || bytes[0] / 16 != 1 {
        return None;
    }
    let len = usize::from(BigEndian::read_u16(&bytes[6..]));
    if len == bytes.len() && has_checksum(bytes) {
        Some(bytes[1])
    } else {
        None
    }
}

/// Appends the header of a message of this type. Its checksum and length are 0 so far.
pub(crate) fn begin(out: &mut Vec<u8>, kind: u8) -> Result<(), OutOfMemory>
    ensures { OnOk result (out.new.items ≡ out.old.items ++ header_bytes kind 0 0) }
{
    out.extend_from_slice(&[VERSION_AND_FLAGS, kind, 0, 0, SEND_TTL, 0, 0, 0])?;
    Ok(())
}

/// Writes the length and the checksum of a message into its header.
pub(crate) fn seal(out: &mut [u8])
    requires long { 8 ≤ length out.old }
    requires short { length out.old < 2 ^ 16 }
    ensures { (kind : ℕ) (body : List ℕ) → out.old ≡ header_bytes kind 0 0 ++ body
        → out.new ≡ message kind body }
{
    let len = out.len() as u16;
    BigEndian::write_u16(&mut out[6..8], len);
    let checksum = internet_checksum(out);
    BigEndian::write_u16(&mut out[2..4], checksum);
}

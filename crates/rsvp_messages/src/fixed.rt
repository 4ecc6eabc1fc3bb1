//! Objects that are always written alike and that nothing here reads.

ghost use Rattle.std.specs.Prelude.{◌≡◌, ◌<◌, ◌+◌, ◌++◌, OnOk};
ghost use Rattle.wire_buf.specs.Objects.{object};
ghost use Rattle.rsvp_messages.specs.Written.{bucket, bytes_of, flowspec, sender_tspec, style, time_values};

use crate::classes::{FLOWSPEC, SENDER_TSPEC, STYLE, TIME_VALUES};
use ason_base::OutOfMemory;

/// The service of a SENDER_TSPEC, and that of a FLOWSPEC of controlled load (RFC 2210, section 3).
const DEFAULT_SERVICE: u8 = 1;

const CONTROLLED_LOAD: u8 = 5;

/// Appends the TIME_VALUES, with a refresh period of 30,000 ms.
pub(crate) fn write_time_values(out: &mut Vec<u8>) -> Result<(), OutOfMemory>
    ensures { OnOk result (out.new.items ≡ out.old.items ++ bytes_of time_values) }
{
    out.extend_from_slice(&[0, 8, TIME_VALUES, 1, 0x00, 0x00, 0x75, 0x30])?;
    Ok(())
}

/// Appends the STYLE of a fixed filter.
pub(crate) fn write_style(out: &mut Vec<u8>) -> Result<(), OutOfMemory>
    ensures { OnOk result (out.new.items ≡ out.old.items ++ bytes_of style) }
{
    out.extend_from_slice(&[0, 8, STYLE, 1, 0x00, 0x00, 0x00, 0x0A])?;
    Ok(())
}

// An object of this class with a token bucket of zeros, for this service.
fn traffic(class: u8, service: u8) -> [u8; 36]
    ensures { result ≡ object class 2 (bucket service) }
{
    [
        0, 36, class, 2, 0x00, 0x00, 0x00, 0x07, service, 0x00, 0x00, 0x06, 0x7F, 0x00, 0x00, 0x05,
        0, 0, 0, 0, 0, 0, 0, 0, 0, 0, 0, 0, 0, 0, 0, 0, 0, 0, 0, 0,
    ]
}

/// Appends the SENDER_TSPEC.
pub(crate) fn write_sender_tspec(out: &mut Vec<u8>) -> Result<(), OutOfMemory>
    ensures { OnOk result (out.new.items ≡ out.old.items ++ bytes_of sender_tspec) }
{
    out.extend_from_slice(&traffic(SENDER_TSPEC, DEFAULT_SERVICE))?;
    Ok(())
}

/// Appends the FLOWSPEC.
pub(crate) fn write_flowspec(out: &mut Vec<u8>) -> Result<(), OutOfMemory>
    ensures { OnOk result (out.new.items ≡ out.old.items ++ bytes_of flowspec) }
{
    out.extend_from_slice(&traffic(FLOWSPEC, CONTROLLED_LOAD))?;
    Ok(())
}

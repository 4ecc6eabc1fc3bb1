//! Bytes in hexadecimal.

ghost use Rattle.std.specs.{Prelude.{◌≡◌, IfOk}, Option.option_map};
ghost use Rattle.message_text.specs.Hex.{hex_bytes};

use ason_base::OutOfMemory;
use std::alloc::Global;
use wire_buf::hex_digit;

/// The bytes of a line. None where the line is of another form.
pub(crate) fn bytes_of(alloc: Global, line: &[u8]) -> Result<Option<Vec<u8>>, OutOfMemory>
    ensures { IfOk result (λ bytes. option_map (λ v. v.items) bytes ≡ hex_bytes line.now) }
{
    let mut bytes = Vec::new(alloc);
    let mut rest = line;
    'bytes: loop {
        match rest {
            [] => return Ok(Some(bytes)),
            [b' ', others @ ..] => rest = others,
            [high, low, others @ ..] => {
                let (Some(high), Some(low)) = (hex_digit(*high), hex_digit(*low)) else {
                    return Ok(None);
                };
                bytes.push(16 * high + low)?;
                rest = others;
            }
            [_] => return Ok(None),
        }
    }
}

//! The text of the decode command: lines of RSVP messages in hexadecimal, and what they spell.
//!
//! - `decode_text`: what is told of the lines, one after the other (`IsDecodeText`). It is the only text that they have
//!   (`IsOne`).
//! - A line that isn't bytes in hexadecimal prints "not hex", and a line without bytes prints nothing (`IsBytesText`).
//! - Bytes print "not a message" exactly when they spell none. Otherwise they print the message that they spell, and a
//!   line for each of its objects (`IsMessageText`).
//!
//! Tested: `tests/test_decode.py` over the built program.
#![tactic(auto)]

ghost use Rattle.std.specs.Prelude.{◌≡◌, ◌≤◌, ◌∷◌, ◌==◌, position, length, IfOk, OnOk};
ghost use Rattle.message_text.specs.{DecodeText.{IsBytesText, IsDecodeText, IsMessageText, lines_of}, Hex.hex_bytes, LinesLeft.{text_lines_left, size_left}, OneText.{AppendsOne, IsOne}};

mod hex;
mod text;

use ason_base::{DecodeError, OutOfMemory};
use rsvp_messages::{decode, objects};
use std::alloc::Global;

/// Appends what is printed of the bytes of a line: the one text that they have.
fn push_message(alloc: Global, text: &mut String, bytes: &[u8]) -> Result<(), OutOfMemory>
    ensures { OnOk result (AppendsOne (IsMessageText bytes.now) text.old text.new) }
{
    match decode(alloc, bytes) {
        Ok(packet) => {
            let Ok(lines) = objects(alloc, bytes) else {
                return Err(OutOfMemory);
            };
            text::push_packet(text, &packet, &lines)
        }
        Err(DecodeError::NotMessage) => {
            text.push_str("not a message\n")?;
            Ok(())
        }
        Err(DecodeError::OutOfMemory) => Err(OutOfMemory),
    }
}

/// Appends what is printed of a line: the one text that it has.
fn push_line(alloc: Global, text: &mut String, line: &[u8]) -> Result<(), OutOfMemory>
    ensures { OnOk result (AppendsOne (IsBytesText (hex_bytes line.now)) text.old text.new) }
{
    match hex::bytes_of(alloc, line)? {
        None => {
            text.push_str("not hex\n")?;
            Ok(())
        }
        Some(bytes) if bytes.is_empty() => Ok(()),
        Some(bytes) => push_message(alloc, text, &bytes),
    }
}

fn newline(bytes: &[u8]) -> Option<usize>
    ensures { result ≡ position (λ c. c == 10) bytes.now }
{
    bytes.iter().position(|c| *c == b'\n')
}

/// The first line, and what is behind its newline, if it ends with one.
fn first_line(bytes: &[u8]) -> (&[u8], Option<&[u8]>)
    ensures lines { lines_of bytes.now ≡ result.0.now ∷ text_lines_left result.1 }
    ensures less { size_left result.1 ≤ length bytes.now }
{
    match newline(bytes) {
        None => (bytes, None),
        Some(end) => (&bytes[..end], Some(&bytes[end + 1..])),
    }
}

/// What is printed of the lines: the one text that they have.
pub fn decode_text(alloc: Global, bytes: &[u8]) -> Result<Vec<u8>, OutOfMemory>
    ensures { IfOk result (λ text. IsOne (IsDecodeText bytes.now) text.items) }
{
    let mut text = String::new(alloc);
    let mut left = Some(bytes);
    'lines: while let Some(rest) = left {
        let (line, after) = first_line(rest);
        push_line(alloc, &mut text, line)?;
        left = after;
    }
    Ok(text.into_bytes())
}

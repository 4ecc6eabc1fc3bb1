//! Bytes in hexadecimal, two digits each.

ghost use Rattle.std.specs.{Prelude.{◌≡◌, ◌<◌, ◌≤◌, ◌+◌, ◌*◌, ◌++◌, ℕ, All, IfOk, List, Some, length, vec_len, vec_capacity}, Option.option_map};
ghost use Rattle.wire_buf.specs.{Codecs.AppendsBytes, Hex.{digit_of, digit_value, hex_pairs, hex_text}};

use ason_base::OutOfMemory;
use std::alloc::Global;

/// The value of a digit, in either case: none exactly where it is no digit.
pub fn hex_digit(c: u8) -> Option<u8>
    ensures { result ≡ digit_value c }
{
    match c {
        b'0'..=b'9' => Some(c - b'0'),
        b'a'..=b'f' => Some(c - b'a' + 10),
        b'A'..=b'F' => Some(c - b'A' + 10),
        _ => None,
    }
}

/// Adds the byte of two digits, and goes on behind them. Where one is no digit, the function ends with none.
#[macro_export]
macro_rules! push_digits {
    ($bytes:ident, $high:ident, $low:ident, $rest:ident, $others:ident) => {{
        let (Some($high), Some($low)) = (hex_digit(*$high), hex_digit(*$low)) else {
            return Ok(None);
        };
        $bytes.push(16 * $high + $low)?;
        $rest = $others;
    }};
}

/// The bytes that the text writes, two digits each: none exactly where it is of another form.
pub fn read_hex(alloc: Global, text: &[u8]) -> Result<Option<Vec<u8>>, OutOfMemory>
    ensures { IfOk result (λ bytes. option_map (λ v. v.items) bytes ≡ hex_pairs text.now) }
{
    let mut bytes = Vec::with_capacity(alloc, text.len() / 2)?;
    let mut rest = text;
    'bytes: loop {
        match rest {
            [] => return Ok(Some(bytes)),
            [high, low, others @ ..] => push_digits!(bytes, high, low, rest, others),
            [_] => return Ok(None),
        }
    }
}

// The digit of this value, a letter in upper case.
fn digit_of(value: u8) -> u8
    requires { value < 16 }
    ensures { result ≡ digit_of value }
{
    if value <= 9 {
        value + b'0'
    } else {
        value - 10 + b'A'
    }
}

// Appends the digits of bytes that there is room for.
fn put_hex(out: &mut Vec<u8>, bytes: &[u8])
    requires { vec_len out.old + 2 * length bytes.now ≤ vec_capacity out.old }
    ensures { out.new.items ≡ out.old.items ++ hex_text bytes.now }
{
    for byte in bytes {
        out.push_reserved(digit_of(*byte / 16));
        out.push_reserved(digit_of(*byte % 16));
    }
}

/// Appends the bytes as two digits each, letters in upper case.
pub fn push_hex(out: &mut Vec<u8>, bytes: &[u8]) -> Result<(), OutOfMemory>
    ensures { AppendsBytes out.old out.new (hex_text bytes.now) result }
{
    out.reserve(2 * bytes.len())?;
    put_hex(out, bytes);
    Ok(())
}

/// Law: what is written of bytes is read as those bytes again.
pub fn hex_comes_back()
    ensures { (bytes : List ℕ) → All (λ b. b < 256) bytes → hex_pairs (hex_text bytes) ≡ Some bytes }
{}

//! The Internet checksum (RFC 1071).

ghost use Rattle.std.specs.Prelude.{◌≡◌, ◌<◌, ◌+◌, ◌-◌, ◌%◌, ◌++◌, ◌↔◌, List, ℕ, All, fold, length, sum};
ghost use Rattle.wire_buf.specs.Checksum.{checksum_of, ones_add, ones_of, words};

use crate::cursor::Cursor;

// What stands for a sum in one's complement.
fn ones_of(sum: u128) -> u16
    ensures { result ≡ ones_of sum }
{
    if sum == 0 {
        0
    } else {
        ((sum - 1) % 0xFFFF + 1) as u16
    }
}

/// Law: words that are added one by one in one's complement have the sum that all of them have at once.
pub fn carries_may_wait()
    ensures { (words : List ℕ) → All (λ w. w < 65536) words
        → fold ones_add 0 words ≡ ones_of (sum words) }
{}

/// Law: where the other words have a sum above 0, the field between them has their checksum exactly where the checksum
/// of the whole is 0 (RFC 1071, section 1). 0xFFFF is no checksum of such words.
pub fn right_checksums_cancel()
    ensures { (others field : ℕ) → 0 < others → field < 65535
        → (field ≡ 65535 - ones_of others) ↔ (65535 - ones_of (others + field) ≡ 0) }
{}

/// Law: the words of two pieces, of which the first has no odd byte, are the words of the whole.
pub fn pieces_keep_words()
    ensures { (front back : List ℕ) → length front % 2 ≡ 0
        → words (front ++ back) ≡ words front ++ words back }
{}

// The word of a last byte, which is its high byte; 0 where none is left.
fn last_byte(cursor: &mut Cursor) -> u32
    requires { length cursor.old < 2 }
    ensures value { result ≡ sum (words cursor.old) }
    ensures small { result < 65536 }
{
    match cursor.u8() {
        None => 0,
        Some(last) => u32::from(last) << 8,
    }
}

// The sum of the words of the last bytes.
fn last_words(cursor: &mut Cursor) -> u32
    requires { length cursor.old < 4 }
    ensures value { result ≡ sum (words cursor.old) }
    ensures small { result < 131072 }
{
    match cursor.u16() {
        None => last_byte(cursor),
        Some(word) => u32::from(word) + last_byte(cursor),
    }
}

/// The one's complement of the one's complement sum of the 16-bit words. An odd last byte is the high byte of a word
/// whose low byte is 0 (RFC 1071, sections 1 and 4.1). Four words are added at a time, then two, as one number, which is
/// their sum in one's complement (section 2, C).
pub fn internet_checksum(bytes: &[u8]) -> u16
    ensures { result ≡ checksum_of bytes.now }
{
    let mut cursor = Cursor::new(bytes);
    let mut sum = 0u128;
    'fours: while let Some(four) = cursor.u64() {
        sum += u128::from(four);
    }
    'pairs: while let Some(pair) = cursor.u32() {
        sum += u128::from(pair);
    }
    sum += u128::from(last_words(&mut cursor));
    !ones_of(sum)
}

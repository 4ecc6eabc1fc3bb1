//! Numbers that words write in decimal.

ghost use Rattle.std.specs.Prelude.{◌≡◌, ◌≤◌, IfOk, IsTrue};
ghost use Rattle.ason_base.specs.Numerals.{are_digits, is_numeral, number_up_to, number_within};

/// Why a word gives no number.
#[derive(Clone, Copy, Drop)]
pub enum NumeralFault {
    /// It isn't decimal digits without a leading zero.
    NoNumber,
    /// It writes a number below the least or above the greatest.
    OutOfRange,
}

fn are_digits(text: &[u8]) -> bool
    ensures { result ≡ are_digits text.now }
{
    text.iter().all(|b| b.is_ascii_digit())
}

/// Whether the word is decimal digits without a leading zero.
pub fn is_numeral(word: &[u8]) -> bool
    ensures { result ≡ is_numeral word.now }
{
    match word {
        [] => false,
        [first, others @ ..] => first.is_ascii_digit()
            && are_digits(others)
            && (*first != b'0' || others.is_empty()),
    }
}

// The number that the digits write, where it is below 2^64.
fn number(word: &[u8]) -> Option<u64>
    requires { IsTrue (is_numeral word.now) }
    ensures { result ≡ number_up_to 18446744073709551615 word.now }
{
    match std::str::from_utf8(word) {
        Ok(text) => match text.parse::<u64>() {
            Ok(n) => Some(n),
            Err(_) => None,
        },
        Err(_) => None,
    }
}

/// The number that the word writes, where it is one and is from `least` to `most`.
pub fn number_within(word: &[u8], least: u64, most: u64) -> Result<u64, NumeralFault>
    ensures exact { result ≡ number_within least most word.now }
    ensures low { IfOk result (λ n. least ≤ n) }
    ensures high { IfOk result (λ n. n ≤ most) }
{
    if !is_numeral(word) {
        return Err(NumeralFault::NoNumber);
    }
    match number(word) {
        Some(n) if least <= n && n <= most => Ok(n),
        _ => Err(NumeralFault::OutOfRange),
    }
}

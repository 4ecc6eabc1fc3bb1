//! Ages in ticks of what waits for an acknowledgement, and when it goes again (RFC 2961, section 6).

ghost use Rattle.std.specs.Prelude.{◌≡◌};
ghost use Rattle.hop_reliable.specs.Ages.{is_due, older_age};

/// The age after one more tick, where 68 counts as 8.
pub fn older_age(age: u8) -> u8
    ensures { result ≡ older_age age }
{
    if age < 67 { age + 1 } else { 8 }
}

/// Whether what has this age goes again.
pub fn is_due(age: u8) -> bool
    ensures { result ≡ is_due age }
{
    matches!(age, 1 | 3 | 7 | 67)
}

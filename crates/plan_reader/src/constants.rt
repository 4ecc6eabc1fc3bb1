//! The numbers that definitions take from constants.

ghost use Rattle.std.specs.Prelude.{◌≡◌};
ghost use Rattle.plan_reader.specs.declared.limits.TheConstants.{MOST_DIGITS, MOST_LINES, MOST_MORE_CHARACTERS, MOST_NUMBER, MOST_ROUNDS, MOST_WAIT, MOST_WAITED};

/// Law: how much a plan may have.
pub fn limits()
    ensures lines { MOST_LINES ≡ 10000 }
    ensures rounds { MOST_ROUNDS ≡ 1000 }
    ensures waited { MOST_WAITED ≡ 10000 }
    ensures wait { MOST_WAIT ≡ 10000 }
    ensures number { MOST_NUMBER ≡ 4294967295 }
    ensures name { MOST_MORE_CHARACTERS ≡ 15 }
    ensures digits { MOST_DIGITS ≡ 131070 }
{}

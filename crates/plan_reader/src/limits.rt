//! How much a plan may have.

/// The most lines of a script.
pub const MOST_LINES: usize = 10_000;

/// The most rounds of a `settle`.
pub const MOST_ROUNDS: u32 = 1_000;

/// The most rounds of a `wait`.
pub const MOST_WAITED: u32 = 10_000;

/// The most ticks until a call goes back.
pub const MOST_WAIT: u32 = 10_000;

/// The greatest id of a node or a link, and the greatest SRLG.
pub const MOST_NUMBER: u32 = 4_294_967_295;

/// The most characters of a name behind its first.
pub const MOST_MORE_CHARACTERS: usize = 15;

/// The most hexadecimal digits of a noise.
pub const MOST_DIGITS: usize = 131_070;

//! What a turn answers.

/// How a turn ended.
#[derive(Clone, Copy, PartialEq, Eq, Drop)]
pub enum Turn {
    /// So many lines, at least one, were written in the log; all that was known to be there was done.
    Worked(u64),
    /// There was nothing to do.
    Idle,
    /// An input is at hand, which stays there, and the log is full, or no stamp is left for it.
    AtLimit,
    /// Memory is wanting. What was done stays; a frame that came out of its ring for the refused line is lost.
    Starved,
}

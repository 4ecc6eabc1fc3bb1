//! What the other stations do meanwhile.

/// What the other stations do while one makes its turns.
#[derive(Clone, Copy, PartialEq, Eq, Drop)]
pub(crate) enum Others {
    /// They make theirs, and frames may come.
    Working,
    /// They wait, so no frame comes beside those that stand in the rings.
    Waiting,
}

//! Why a turn ends before its end.

#[derive(Clone, Copy, Drop)]
pub(crate) enum Halt {
    /// An input is at hand, and the log is full or no stamp is left for it.
    AtLimit,
    OutOfMemory,
}

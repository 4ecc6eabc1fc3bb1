//! The lines of a script.

use ason_base::{Bytes, Command, Disturb, Items, NodeId};

/// One line of a script.
pub enum Line {
    /// Posts a command.
    Post(Command),
    /// Loses, repeats or holds a frame of a channel.
    Disturb(Disturb),
    /// Has `to` take these bytes as a frame from `from`. They spell nothing.
    Noise {
        from: NodeId,
        to: NodeId,
        bytes: Bytes,
    },
    /// Makes rounds until all is quiet, at most this many.
    Settle(u32),
    /// Makes this many rounds.
    Wait(u32),
    /// Prints the table.
    Show,
}

impl Drop for Line {
    fn drop(self) {
        match self {
            Line::Post(_)
            | Line::Disturb(_)
            | Line::Noise {
                from: _,
                to: _,
                bytes: _,
            }
            | Line::Settle(_)
            | Line::Wait(_)
            | Line::Show => {}
        }
    }
}

/// A list of lines.
pub type Lines = Items<Line>;

//! The lines of a script that name a frame.

ghost use Rattle.std.specs.Prelude.{◌≡◌};
ghost use Rattle.round_rules.specs.Lines.{names_frame, says};

use ason_base::{Disturb, DisturbKind, NodeId};

// Whether the line names this frame.
fn is_named(line: &Disturb, from: NodeId, to: NodeId, number: u64) -> bool
    ensures { result ≡ names_frame from to number line.now }
{
    line.from == from && line.to == to && line.k == number
}

/// What the last line says that names the frame of this number on the channel from one node to the other.
pub(crate) fn says(lines: &[Disturb], from: NodeId, to: NodeId, number: u64) -> Option<DisturbKind>
    ensures { result ≡ says lines.now from to number }
{
    let mut said = None;
    for line in lines {
        if is_named(line, from, to, number) {
            said = Some(line.kind);
        }
    }
    said
}

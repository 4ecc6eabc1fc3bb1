//! The lines of a script that name a frame or bring noise.

ghost use Rattle.std.specs.Prelude.{◌≡◌, IfOk, Ok};
ghost use Rattle.flood.specs.{Frames.{IsFrame, SpellsNothing}, declared.frames.Content.Content};
ghost use Rattle.plan_reader.specs.{Entries.{FailsBy, FailsWith}, PlanFrames.{channel_named, disturb_of, noise_bytes, frame_noise}, declared.faults.PlanKind.PlanKind, PlanTexts.texts};

use crate::faults::{EntryError, PlanKind};
use crate::limits::MOST_DIGITS;
use crate::lines::Line;
use crate::names::Names;
use crate::setups::node_at;
use crate::words::{positive_at, word};
use ason_base::limits::MOST_AHEAD;
use ason_base::{Bytes, DecodeError, Disturb, DisturbKind, NodeId, OutOfMemory, Topology};
use flood::read_frame;
use std::alloc::Global;
use wire_buf::read_hex;

// The two neighbours that the second and the third word name, or the first fault.
fn read_channel(
    t: &Topology,
    names: &Names,
    words: &[&[u8]],
) -> Result<(NodeId, NodeId), EntryError>
    ensures ends { IfOk result (λ e. channel_named t.now names.now (texts words.now) ≡ Ok e) }
    ensures fault { FailsBy result (channel_named t.now names.now (texts words.now)) }
{
    let (Some(from), Some(to)) = (node_at(t, names, words, 1), node_at(t, names, words, 2)) else {
        return Err(EntryError::Fault(PlanKind::Node));
    };
    refuse_if!(!t.is_channel(from, to), Channel);
    Ok((from, to))
}

/// A line that does this to a frame, or its first fault.
pub fn read_disturb(
    t: &Topology,
    names: &Names,
    words: &[&[u8]],
    kind: DisturbKind,
) -> Result<Line, EntryError>
    ensures line { IfOk result (λ l. disturb_of t.now names.now (texts words.now) kind ≡ Ok l) }
    ensures fault { FailsBy result (disturb_of t.now names.now (texts words.now) kind) }
{
    let k = positive_at(words, 3, MOST_AHEAD)?;
    let (from, to) = read_channel(t, names, words)?;
    Ok(Line::Disturb(Disturb {
        kind,
        from,
        to,
        k: u64::from(k),
    }))
}

// Noise

// The bytes that the last word of a noise writes; none where it is of another form.
fn noise_bytes(alloc: Global, word: &[u8]) -> Result<Option<Bytes>, OutOfMemory>
    ensures { IfOk result (λ bytes. bytes ≡ noise_bytes word.now) }
{
    if word == b"-".as_slice() {
        return Ok(Some(Bytes::new(alloc)));
    }
    if word.len() > MOST_DIGITS {
        return Ok(None);
    }
    match read_hex(alloc, word)? {
        None => Ok(None),
        Some(bytes) => Ok(Some(Bytes::from_vec(bytes))),
    }
}

/// A noise, or its first fault but the last: whether its bytes spell a frame, `check_noise` tells.
pub fn read_noise(
    alloc: Global,
    t: &Topology,
    names: &Names,
    words: &[&[u8]],
) -> Result<Line, EntryError>
    ensures line { IfOk result (λ l. frame_noise t.now names.now (texts words.now) ≡ Ok l) }
    ensures fault { FailsBy result (frame_noise t.now names.now (texts words.now)) }
{
    let (from, to) = read_channel(t, names, words)?;
    match noise_bytes(alloc, word(words, 3))? {
        None => Err(EntryError::Fault(PlanKind::Hex)),
        Some(bytes) => Ok(Line::Noise { from, to, bytes }),
    }
}

/// Passes bytes that spell nothing. Where they spell a frame, that is a fault.
pub fn check_noise(alloc: Global, bytes: &[u8]) -> Result<(), EntryError>
    ensures nothing { IfOk result (λ _. SpellsNothing bytes.now) }
    ensures frame { FailsWith result
        (λ k. (k ≡ PlanKind.Spells) × ((c : Content) × IsFrame bytes.now c)) }
{
    match read_frame(alloc, bytes) {
        Ok(_) => Err(EntryError::Fault(PlanKind::Spells)),
        Err(DecodeError::NotMessage) => Ok(()),
        Err(DecodeError::OutOfMemory) => Err(EntryError::OutOfMemory),
    }
}

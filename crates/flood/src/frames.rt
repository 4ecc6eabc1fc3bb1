//! Frames on a control channel: one byte, which tells what follows, and a body.

ghost use Rattle.std.specs.Prelude.{◌≡◌, ◌∷◌, ◌++◌, IfNone, IfSome, OnOk};
ghost use Rattle.wire_buf.specs.Codecs.{Decodes};
ghost use Rattle.rsvp_messages.specs.{Writable.IsWritable, Written.written};
ghost use Rattle.flood.specs.{Bodies.IsBody, Frames.{ContentCanBeWritten, IsFrame, SpellsNothing, frame_bytes}, declared.frames.Content.Content, Messages.flood_bytes};
ghost use Rattle.flood.specs.Messages as floods;

use crate::content_ref::{ContentRef, Parts};
use crate::{FloodMsg, FloodRef, append_flood_ref, decode_flood};
use ason_base::{DecodeError, NodeId, OutOfMemory, Packet};
use rsvp_messages::{PacketRef, decode, encode_ref_into, room_for_ref};
use std::alloc::Global;

/// The first byte of a frame that bears an RSVP message: RSVP's number among the protocols over IP.
pub const RSVP: u8 = 46;

/// The first byte of a frame that bears a flood message: OSPF's number among the protocols over IP.
pub const FLOOD: u8 = 89;

/// What one frame bears.
#[derive(Drop)]
pub enum Content {
    /// A packet of a hop: an RSVP message with its number, or acknowledgements alone.
    Message(Packet),
    /// A row of a link, or its acknowledgement.
    Flood(FloodMsg),
}

// The packet that the body of a frame spells.
fn read_message(alloc: Global, body: &[u8]) -> Result<Content, DecodeError>
    ensures { Decodes (IsFrame (46 ∷ body.now)) result }
{
    match decode(alloc, body) {
        Ok(packet) => Ok(Content::Message(packet)),
        Err(error) => Err(error),
    }
}

// The flood message that the body of a frame spells.
fn read_flood(alloc: Global, body: &[u8]) -> Result<Content, DecodeError>
    ensures { Decodes (IsFrame (89 ∷ body.now)) result }
{
    match decode_flood(alloc, body) {
        Ok(m) => Ok(Content::Flood(m)),
        Err(error) => Err(error),
    }
}

/// What follows the first byte of a frame, by that byte.
#[derive(Clone, Copy, Drop)]
pub enum Body<'a> {
    /// The bytes of an RSVP message.
    Message(&'a [u8]),
    /// The bytes of a flood message.
    Flood(&'a [u8]),
}

/// The body of a frame. None only where its bytes spell nothing.
pub fn body_of(bytes: &[u8]) -> Option<Body<'_>>
    ensures some { IfSome result (λ body. IsBody bytes.now body) }
    ensures none { IfNone result (SpellsNothing bytes.now) }
{
    let (first, body) = bytes.split_first()?;
    match *first {
        RSVP => Some(Body::Message(body)),
        FLOOD => Some(Body::Flood(body)),
        _ => None,
    }
}

/// What the bytes of a frame spell.
pub fn read_frame(alloc: Global, bytes: &[u8]) -> Result<Content, DecodeError>
    ensures { Decodes (IsFrame bytes.now) result }
{
    match body_of(bytes) {
        Some(Body::Message(body)) => read_message(alloc, body),
        Some(Body::Flood(body)) => read_flood(alloc, body),
        None => Err(DecodeError::NotMessage),
    }
}

// Appends the frame of a packet.
fn write_message(out: &mut Vec<u8>, me: NodeId, p: &PacketRef<'_>) -> Result<(), OutOfMemory>
    requires { IsWritable p.now }
    ensures written { OnOk result (out.new.items ≡ out.old.items ++ 46 ∷ written me p.now) }
    ensures spelled { OnOk result (IsFrame (46 ∷ written me p.now) (Content.Message p.now)) }
{
    out.reserve(1 + room_for_ref(p))?;
    out.push(RSVP)?;
    encode_ref_into(out, me, p)
}

// Appends the frame of a flood message.
fn write_flood(out: &mut Vec<u8>, m: &FloodRef<'_>) -> Result<(), OutOfMemory>
    requires { floods.CanBeWritten m.now }
    ensures written { OnOk result (out.new.items ≡ out.old.items ++ 89 ∷ flood_bytes m.now) }
    ensures spelled { OnOk result (IsFrame (89 ∷ flood_bytes m.now) (Content.Flood m.now)) }
{
    out.push(FLOOD)?;
    append_flood_ref(out, m)
}

/// Appends the frame that a node sends. After want of memory there may be a part of it.
pub fn write_frame(
    out: &mut Vec<u8>,
    me: NodeId,
    content: &ContentRef<'_>,
) -> Result<(), OutOfMemory>
    requires { ContentCanBeWritten content.now }
    ensures written { OnOk result (out.new.items ≡ out.old.items ++ frame_bytes me content.now) }
    // What is written is read as the same again.
    ensures spelled { OnOk result (IsFrame (frame_bytes me content.now) content.now) }
{
    match &content.parts {
        Parts::Message(p) => write_message(out, me, p),
        Parts::Flood(m) => write_flood(out, m),
    }
}

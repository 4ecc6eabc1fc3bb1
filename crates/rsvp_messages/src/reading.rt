//! Reading whole messages: header, numbers and what the objects spell.

ghost use Rattle.std.specs.Prelude.{◌≡◌, ◌≢◌, ◌<◌, ◌≤◌, ◌^◌, length, drop, List, [], ◌∷◌, Some, All, IfOk, IfSome, IsErrOf};
ghost use Rattle.ason_base.specs.declared.messages.Packet.{Packet};
ghost use Rattle.wire_buf.specs.Codecs.{Decodes, Reads};
ghost use Rattle.rsvp_messages.specs.{Headers.HasHeader, Objects.{AreObjects, Object, size_of}, Packets.{SpelledBy, Spells, SpellsTyped, SpellsTypedPacket, ack_alone, packet_read}, Seen.{all_seen, seen}};

use crate::errors::{read_notify, read_path_err};
use crate::header::{HEADER, read_header};
use crate::ids::{acks, lone_ack, message_id};
use crate::kinds::{ACK, NOTIFY, PATH, PATH_ERR, PATH_TEAR, RESV};
use crate::object_table::Objects;
use crate::path::read_path;
use crate::raw::{RawObject, only_object, read_objects};
use crate::resv::read_resv;
use crate::tear::read_tear;
use ason_base::{DecodeError, Ids, Msg, MsgId, Packet};
use std::alloc::Global;

// The message of another type than Path that the objects spell.
fn read_other(kind: u8, objects: &Objects) -> Option<Msg>
    requires { kind ≢ 1 }
    ensures { Reads (SpellsTyped kind (all_seen objects.now)) result }
{
    match kind {
        RESV => read_resv(objects),
        PATH_ERR => read_path_err(objects),
        PATH_TEAR => read_tear(objects),
        NOTIFY => read_notify(objects),
        _ => None,
    }
}

fn read_msg(alloc: Global, kind: u8, objects: &Objects) -> Result<Msg, DecodeError>
    ensures { Decodes (SpellsTyped kind (all_seen objects.now)) result }
{
    if kind == PATH {
        return read_path(alloc, objects);
    }
    match read_other(kind, objects) {
        Some(msg) => Ok(msg),
        None => Err(DecodeError::NotMessage),
    }
}

fn read_ack_message(alloc: Global, objects: &[RawObject]) -> Result<Packet, DecodeError>
    ensures { Decodes (SpellsTypedPacket 13 (all_seen objects.now)) result }
{
    let acks = acks(alloc, objects)?;
    if acks.items().is_empty() {
        return Err(DecodeError::NotMessage);
    }
    Ok(Packet {
        id: None,
        acks,
        body: None,
    })
}

// What the objects of a message of this type, with a body, spell.
fn read_body(alloc: Global, kind: u8, objects: &Objects) -> Result<Packet, DecodeError>
    requires { kind ≢ 13 }
    ensures { Decodes (SpellsTypedPacket kind (all_seen objects.now)) result }
{
    let Some(id) = message_id(objects) else {
        return Err(DecodeError::NotMessage);
    };
    let acks = acks(alloc, objects.items())?;
    let msg = read_msg(alloc, kind, objects)?;
    Ok(Packet {
        id,
        acks,
        body: Some(msg),
    })
}

fn read_packet(alloc: Global, kind: u8, objects: &[RawObject]) -> Result<Packet, DecodeError>
    requires { length objects.now < 2 ^ 14 }
    ensures { Decodes (SpellsTypedPacket kind (all_seen objects.now)) result }
{
    if kind == ACK {
        read_ack_message(alloc, objects)
    } else {
        read_body(alloc, kind, &Objects::of(objects))
    }
}

/// A message's objects, and what they spell.
#[derive(Drop)]
pub(crate) struct Spelled<'a> {
    pub objects: Vec<RawObject<'a>>,
    pub packet: Packet,
}

// The objects of the message with this header that the bytes spell, and its packet.
fn read_behind<'a>(alloc: Global, kind: u8, bytes: &'a [u8]) -> Result<Spelled<'a>, DecodeError>
    requires header { HasHeader bytes.now kind }
    requires short { length bytes.now < 2 ^ 16 }
    ensures found { IfOk result (λ s. SpelledBy bytes.now (all_seen s.objects.items) s.packet) }
    ensures short { IfOk result (λ s. All (λ o. size_of (seen o) < 2 ^ 16) s.objects.items) }
    ensures only { (os : List Object) (p : Packet) → SpelledBy bytes.now os p
        → IfOk result (λ s. (all_seen s.objects.items ≡ os) × (s.packet ≡ p)) }
    ensures not_message { IsErrOf result DecodeError.NotMessage → (os : List Object) (p : Packet)
        → ¬ SpelledBy bytes.now os p }
{
    let (_, rest) = bytes.split_at(HEADER);
    let objects = read_objects(alloc, rest)?;
    let packet = read_packet(alloc, kind, &objects)?;
    Ok(Spelled { objects, packet })
}

/// The objects of the message that the bytes spell, and its packet. NotMessage exactly where they spell none.
pub(crate) fn read_message<'a>(alloc: Global, bytes: &'a [u8]) -> Result<Spelled<'a>, DecodeError>
    ensures found { IfOk result (λ s. SpelledBy bytes.now (all_seen s.objects.items) s.packet) }
    ensures short { IfOk result (λ s. All (λ o. size_of (seen o) < 2 ^ 16) s.objects.items) }
    ensures only { (os : List Object) (p : Packet) → SpelledBy bytes.now os p
        → IfOk result (λ s. (all_seen s.objects.items ≡ os) × (s.packet ≡ p)) }
    ensures not_message { IsErrOf result DecodeError.NotMessage → (os : List Object) (p : Packet)
        → ¬ SpelledBy bytes.now os p }
{
    let Some(kind) = read_header(bytes) else {
        return Err(DecodeError::NotMessage);
    };
    read_behind(alloc, kind, bytes)
}

// The object of an Ack that has no other. Where there is none, the message may be another.
fn lone_object(kind: u8, bytes: &[u8]) -> Option<RawObject<'_>>
    requires { 8 ≤ length bytes.now }
    ensures kind { IfSome result (λ _. kind ≡ 13) }
    ensures found { IfSome result (λ o. AreObjects (drop 8 bytes.now) (seen o ∷ [])) }
{
    if kind != ACK {
        return None;
    }
    let (_, rest) = bytes.split_at(HEADER);
    only_object(rest)
}

// The number of such an Ack. Where there is none, the message may be another.
fn one_ack(kind: u8, bytes: &[u8]) -> Option<MsgId>
    requires { HasHeader bytes.now kind }
    ensures found { IfSome result (λ id. Spells bytes.now (ack_alone id)) }
    ensures only { IfSome result (λ id. (p : Packet) → Spells bytes.now p → ack_alone id ≡ p) }
{
    let object = lone_object(kind, bytes)?;
    lone_ack(&object)
}

/// A packet as it is read. An acknowledgement that stands alone needs no list.
#[derive(Drop)]
pub enum ReadPacket {
    /// The acknowledgement of this number alone.
    Ack(MsgId),
    /// A packet of any kind.
    Whole(Packet),
}

/// The packet that the bytes spell, as `decode` reads it, but for the list of an acknowledgement that stands alone, as
/// most do. NotMessage exactly where they spell none.
pub fn read(alloc: Global, bytes: &[u8]) -> Result<ReadPacket, DecodeError>
    // What is read is spelled so.
    ensures found { IfOk result (λ read. Spells bytes.now (packet_read read)) }
    // What is spelled so is read, unless memory runs out.
    ensures only { (p : Packet) → Spells bytes.now p → IfOk result (λ read. packet_read read ≡ p) }
    ensures not_message { IsErrOf result DecodeError.NotMessage → (p : Packet)
        → ¬ Spells bytes.now p }
{
    let Some(kind) = read_header(bytes) else {
        return Err(DecodeError::NotMessage);
    };
    if let Some(id) = one_ack(kind, bytes) {
        return Ok(ReadPacket::Ack(id));
    }
    let spelled = read_behind(alloc, kind, bytes)?;
    Ok(ReadPacket::Whole(spelled.packet))
}

// The acknowledgement of this number alone, with a list.
fn listed_ack(alloc: Global, id: MsgId) -> Result<Packet, DecodeError>
    ensures found { IfOk result (λ p. p ≡ ack_alone id) }
    ensures refused { IsErrOf result DecodeError.NotMessage → ⊥ }
{
    let mut acks = Ids::new(alloc);
    push_decoded!(acks, id);
    Ok(Packet {
        id: None,
        acks,
        body: None,
    })
}

/// The packet that the bytes spell. NotMessage exactly where they spell none.
pub fn decode(alloc: Global, bytes: &[u8]) -> Result<Packet, DecodeError>
    // What is read is spelled so.
    ensures found { IfOk result (Spells bytes.now) }
    // What is spelled so is read, unless memory runs out.
    ensures only { (p : Packet) → Spells bytes.now p → IfOk result (λ read. read ≡ p) }
    ensures not_message { IsErrOf result DecodeError.NotMessage → (p : Packet)
        → ¬ Spells bytes.now p }
{
    match read(alloc, bytes) {
        Ok(ReadPacket::Ack(id)) => listed_ack(alloc, id),
        Ok(ReadPacket::Whole(packet)) => Ok(packet),
        Err(fault) => Err(fault),
    }
}

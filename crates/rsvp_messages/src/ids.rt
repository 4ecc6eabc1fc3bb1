//! Numbers of messages and their acknowledgements (RFC 2961, sections 4.2 and 4.3).

ghost use Rattle.std.specs.Prelude.{◌≡◌, ◌++◌, [], ◌∷◌, map, All, IfSome, OnOk};
ghost use Rattle.ason_base.specs.declared.messages.Packet.{Packet};
ghost use Rattle.wire_buf.specs.Codecs.{Decodes, Reads};
ghost use Rattle.rsvp_objects.specs.Bodies.{IsMsgId};
ghost use Rattle.rsvp_messages.specs.{Packets.{HasAcks, SpellsTypedPacket, ack_alone}, Parts.{HasAtMostOne, HasEach}, Seen.{all_seen, seen}, Writable.IsShort, Written.{ack_object, all_bytes, id_objects}};

use crate::classes::{MESSAGE_ID, MESSAGE_ID_ACK};
use crate::lookup::optional;
use crate::object_table::Objects;
use crate::raw::RawObject;
use ason_base::{DecodeError, Ids, MsgId, OutOfMemory};
use rsvp_objects::{read_ack, read_id, write_ack, write_id};
use std::alloc::Global;

/// The C-Type of both objects.
const NUMBER: u8 = 1;

/// The most acknowledgements of a message.
pub(crate) const MOST_ACKS: usize = 64;

/// The message's number, if it has one. None exactly where its MESSAGE_IDs spell none.
pub(crate) fn message_id(objects: &Objects) -> Option<Option<MsgId>>
    ensures { Reads (HasAtMostOne 23 1 IsMsgId (all_seen objects.now)) result }
{
    match optional(objects, MESSAGE_ID, NUMBER)? {
        None => Some(None),
        Some(body) => Some(Some(read_id(body)?)),
    }
}

// The numbers of all MESSAGE_ID_ACKs, however many there are.
fn all_acks(alloc: Global, objects: &[RawObject]) -> Result<Ids, DecodeError>
    ensures { Decodes (HasEach 24 1 IsMsgId (all_seen objects.now)) result }
{
    let mut acks = Ids::new(alloc);
    push_each!(acks, objects, MESSAGE_ID_ACK, NUMBER, read_ack);
    Ok(acks)
}

/// The number that an Ack with this object alone acknowledges. Where there is none, the object may have another meaning.
pub(crate) fn lone_ack(object: &RawObject) -> Option<MsgId>
    ensures found { IfSome result
        (λ id. SpellsTypedPacket 13 (seen object.now ∷ []) (ack_alone id)) }
    ensures only { IfSome result
        (λ id. (p : Packet) → SpellsTypedPacket 13 (seen object.now ∷ []) p → ack_alone id ≡ p) }
{
    if object.class == MESSAGE_ID_ACK && object.ctype == NUMBER {
        read_ack(object.body)
    } else {
        None
    }
}

/// The acknowledgements. NotMessage exactly where the MESSAGE_ID_ACKs spell none, as where there are too many.
pub(crate) fn acks(alloc: Global, objects: &[RawObject]) -> Result<Ids, DecodeError>
    ensures { Decodes (HasAcks (all_seen objects.now)) result }
{
    let acks = all_acks(alloc, objects)?;
    if acks.items().len() > MOST_ACKS {
        return Err(DecodeError::NotMessage);
    }
    Ok(acks)
}

/// Appends the MESSAGE_ID, if there is a number.
pub(crate) fn write_message_id(out: &mut Vec<u8>, id: Option<MsgId>) -> Result<(), OutOfMemory>
    requires { IfSome id IsShort }
    ensures { OnOk result (out.new.items ≡ out.old.items ++ all_bytes (id_objects id)) }
{
    match id {
        Some(id) => write_id(out, &id),
        None => Ok(()),
    }
}

/// Appends the MESSAGE_ID_ACKs.
pub(crate) fn write_acks(out: &mut Vec<u8>, acks: &[MsgId]) -> Result<(), OutOfMemory>
    requires { All IsShort acks.now }
    ensures { OnOk result (out.new.items ≡ out.old.items ++ all_bytes (map ack_object acks.now)) }
{
    for ack in acks {
        write_ack(out, ack)?;
    }
    Ok(())
}

//! MESSAGE_ID and MESSAGE_ID_ACK (RFC 2961, sections 4.2 and 4.3).

ghost use Rattle.std.specs.Prelude.{◌≡◌, ◌<◌, ◌^◌, ℕ};
ghost use Rattle.ason_base.specs.declared.messages.MsgId.{MsgId};
ghost use Rattle.wire_buf.specs.{Codecs.{AppendsBytes, Reads}, Objects.object};
ghost use Rattle.rsvp_objects.specs.Bodies.{IsMsgId, msg_id_bytes};

use ason_base::{MsgId, OutOfMemory};
use byteorder::{BigEndian, ByteOrder};

const MESSAGE_ID: u8 = 23;

const MESSAGE_ID_ACK: u8 = 24;

/// The flag of a MESSAGE_ID that asks for an acknowledgement.
const ACK_DESIRED: u8 = 1;

/// The number of a MESSAGE_ID's body, or of a MESSAGE_ID_ACK's. None exactly where the body is none.
pub fn read_id(body: &[u8]) -> Option<MsgId>
    ensures { Reads (IsMsgId body.now) result }
{
    if body.len() != 8 {
        return None;
    }
    Some(MsgId {
        epoch: BigEndian::read_u24(&body[1..]),
        number: BigEndian::read_u32(&body[4..]),
    })
}

/// The object of this class.
fn object_of(class: u8, flags: u8, x: &MsgId) -> [u8; 12]
    requires { x.now.epoch < 2 ^ 24 }
    ensures { result ≡ object class 1 (msg_id_bytes flags x.now) }
{
    let mut bytes = [0, 12, class, 1, flags, 0, 0, 0, 0, 0, 0, 0];
    BigEndian::write_u24(&mut bytes[5..], x.epoch);
    BigEndian::write_u32(&mut bytes[8..], x.number);
    bytes
}

fn write_as(out: &mut Vec<u8>, class: u8, flags: u8, x: &MsgId) -> Result<(), OutOfMemory>
    requires { x.now.epoch < 2 ^ 24 }
    ensures { AppendsBytes out.old out.new (object class 1 (msg_id_bytes flags x.now)) result }
{
    out.extend_from_slice(&object_of(class, flags, x))?;
    Ok(())
}

/// Appends the MESSAGE_ID object, which asks for an acknowledgement.
pub fn write_id(out: &mut Vec<u8>, x: &MsgId) -> Result<(), OutOfMemory>
    requires { x.now.epoch < 2 ^ 24 }
    ensures { AppendsBytes out.old out.new (object 23 1 (msg_id_bytes 1 x.now)) result }
{
    write_as(out, MESSAGE_ID, ACK_DESIRED, x)
}

/// Appends the MESSAGE_ID_ACK object.
pub fn write_ack(out: &mut Vec<u8>, x: &MsgId) -> Result<(), OutOfMemory>
    requires { x.now.epoch < 2 ^ 24 }
    ensures { AppendsBytes out.old out.new (object 24 1 (msg_id_bytes 0 x.now)) result }
{
    write_as(out, MESSAGE_ID_ACK, 0, x)
}

/// Law: what is written of a number, with any flags, is read as that number again.
pub fn ids_come_back()
    ensures { (flags : ℕ) (m : MsgId) → m.epoch < 2 ^ 24 → m.number < 2 ^ 32
        → IsMsgId (msg_id_bytes flags m) m }
{}

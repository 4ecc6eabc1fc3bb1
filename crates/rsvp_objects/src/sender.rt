//! SENDER_TEMPLATE and FILTER_SPEC of an LSP tunnel (RFC 3209, sections 4.6.2.1 and 4.6.3.1).

ghost use Rattle.std.specs.Prelude.{◌≡◌, ◌<◌, ◌^◌};
ghost use Rattle.wire_buf.specs.{Codecs.{AppendsBytes, Reads}, Objects.object};
ghost use Rattle.rsvp_objects.specs.{declared.sender.SenderRef.SenderRef, Bodies.{IsSenderRef, sender_bytes}};

use ason_base::{NodeId, OutOfMemory};
use byteorder::{BigEndian, ByteOrder};

const FILTER_SPEC: u8 = 10;

const SENDER_TEMPLATE: u8 = 11;

/// The sender of an LSP: its ingress, and the LSP's number there.
#[derive(Clone, Copy, Drop)]
pub struct SenderRef {
    pub sender: NodeId,
    pub lsp: u16,
}

fn sender_of(body: &[u8]) -> Option<SenderRef>
    ensures { Reads (IsSenderRef body.now) result }
{
    if body.len() != 8 {
        return None;
    }
    Some(SenderRef {
        sender: NodeId(BigEndian::read_u32(body)),
        lsp: BigEndian::read_u16(&body[6..]),
    })
}

/// The object of this class.
fn object_of(class: u8, x: &SenderRef) -> [u8; 12]
    ensures { result ≡ object class 7 (sender_bytes x.now) }
{
    let mut bytes = [0, 12, class, 7, 0, 0, 0, 0, 0, 0, 0, 0];
    BigEndian::write_u32(&mut bytes[4..], x.sender.0);
    BigEndian::write_u16(&mut bytes[10..], x.lsp);
    bytes
}

fn write_as(out: &mut Vec<u8>, class: u8, x: &SenderRef) -> Result<(), OutOfMemory>
    ensures { AppendsBytes out.old out.new (object class 7 (sender_bytes x.now)) result }
{
    out.extend_from_slice(&object_of(class, x))?;
    Ok(())
}

/// The sender of a FILTER_SPEC's body. None exactly where the body is none.
pub fn read_filter(body: &[u8]) -> Option<SenderRef>
    ensures { Reads (IsSenderRef body.now) result }
{
    sender_of(body)
}

/// Appends the FILTER_SPEC object.
pub fn write_filter(out: &mut Vec<u8>, x: &SenderRef) -> Result<(), OutOfMemory>
    ensures { AppendsBytes out.old out.new (object 10 7 (sender_bytes x.now)) result }
{
    write_as(out, FILTER_SPEC, x)
}

/// The sender of a SENDER_TEMPLATE's body. None exactly where the body is none.
pub fn read_sender(body: &[u8]) -> Option<SenderRef>
    ensures { Reads (IsSenderRef body.now) result }
{
    sender_of(body)
}

/// Appends the SENDER_TEMPLATE object.
pub fn write_sender(out: &mut Vec<u8>, x: &SenderRef) -> Result<(), OutOfMemory>
    ensures { AppendsBytes out.old out.new (object 11 7 (sender_bytes x.now)) result }
{
    write_as(out, SENDER_TEMPLATE, x)
}

/// Law: what is written of a sender is read as that sender again.
pub fn senders_come_back()
    ensures { (s : SenderRef) → s.sender.0 < 2 ^ 32 → s.lsp < 2 ^ 16
        → IsSenderRef (sender_bytes s) s }
{}

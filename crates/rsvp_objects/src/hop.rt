//! RSVP_HOP with an interface (RFC 3473, section 8.1.1).

ghost use Rattle.std.specs.Prelude.{◌≡◌, ◌<◌, ◌^◌};
ghost use Rattle.wire_buf.specs.{Codecs.{AppendsBytes, Reads}, Objects.object};
ghost use Rattle.rsvp_objects.specs.{declared.hop.HopObject.HopObject, Bodies.{IsHop, hop_bytes}};

use crate::tlv::{if_index_bytes, one_if_index};
use ason_base::{LinkId, NodeId, OutOfMemory};
use byteorder::{BigEndian, ByteOrder};

/// The sender of a message, and the link that it sends over.
#[derive(Clone, Copy, Drop)]
pub struct HopObject {
    pub sender: NodeId,
    pub link: LinkId,
}

/// The hop of an RSVP_HOP's body. None exactly where the body is none, as where it has no IF_INDEX or two.
pub fn read_hop(body: &[u8]) -> Option<HopObject>
    ensures { Reads (IsHop body.now) result }
{
    if body.len() < 8 {
        return None;
    }
    match one_if_index(&body[8..]) {
        Some(link) => Some(HopObject {
            sender: NodeId(BigEndian::read_u32(body)),
            link,
        }),
        None => None,
    }
}

/// The RSVP_HOP object.
fn object_of(x: &HopObject) -> [u8; 24]
    ensures { result ≡ object 3 3 (hop_bytes x.now) }
{
    let mut bytes = [0; 24];
    bytes[..4].copy_from_slice(&[0, 24, 3, 3]);
    BigEndian::write_u32(&mut bytes[4..], x.sender.0);
    bytes[12..].copy_from_slice(&if_index_bytes(x.sender, x.link));
    bytes
}

/// Appends the RSVP_HOP object. The sender is its address and that of its IF_INDEX.
pub fn write_hop(out: &mut Vec<u8>, x: &HopObject) -> Result<(), OutOfMemory>
    ensures { AppendsBytes out.old out.new (object 3 3 (hop_bytes x.now)) result }
{
    out.extend_from_slice(&object_of(x))?;
    Ok(())
}

/// Law: what is written of a hop is read as that hop again.
pub fn hops_come_back()
    ensures { (h : HopObject) → h.sender.0 < 2 ^ 32 → h.link.0 < 2 ^ 32 → IsHop (hop_bytes h) h }
{}

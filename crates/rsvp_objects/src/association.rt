//! ASSOCIATION (RFC 4872, section 16.1).

ghost use Rattle.std.specs.Prelude.{◌<◌, ◌^◌};
ghost use Rattle.wire_buf.specs.{Codecs.{AppendsBytes, Reads}, Objects.object};
ghost use Rattle.rsvp_objects.specs.{declared.association.Association.Association, RecoveryBodies.{IsAssociation, association_bytes}};

use ason_base::OutOfMemory;
use byteorder::{BigEndian, ByteOrder};
use wire_buf::{put_header, put_u16, put_u32};

/// What ties LSPs together: the type of association, its id, and the source that gave the id. In recovery (type 1) the
/// id is the number of the LSP that is protected.
#[derive(Clone, Copy, Drop)]
pub struct Association {
    pub kind: u16,
    pub id: u16,
    pub source: u32,
}

/// The association of an ASSOCIATION's body. None exactly where the body is none.
pub fn read_association(body: &[u8]) -> Option<Association>
    ensures { Reads (IsAssociation body.now) result }
{
    if body.len() != 8 {
        return None;
    }
    Some(Association {
        kind: BigEndian::read_u16(body),
        id: BigEndian::read_u16(&body[2..]),
        source: BigEndian::read_u32(&body[4..]),
    })
}

/// Appends the ASSOCIATION object.
pub fn write_association(out: &mut Vec<u8>, x: &Association) -> Result<(), OutOfMemory>
    ensures { AppendsBytes out.old out.new (object 199 1 (association_bytes x.now)) result }
{
    out.reserve(12)?;
    put_header(out, 12, 199, 1);
    put_u16(out, x.kind);
    put_u16(out, x.id);
    put_u32(out, x.source);
    Ok(())
}

/// Law: what is written of an association is read as that association again.
pub fn associations_come_back()
    ensures { (a : Association) → a.kind < 2 ^ 16 → a.id < 2 ^ 16 → a.source < 2 ^ 32
        → IsAssociation (association_bytes a) a }
{}

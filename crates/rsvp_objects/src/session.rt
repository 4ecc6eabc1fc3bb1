//! SESSION of an LSP tunnel (RFC 3209, section 4.6.1.1).

ghost use Rattle.std.specs.Prelude.{◌≡◌, ◌<◌, ◌^◌};
ghost use Rattle.wire_buf.specs.{Codecs.{AppendsBytes, Reads}, Objects.object};
ghost use Rattle.rsvp_objects.specs.{declared.session.Session.Session, Bodies.{IsSession, session_bytes}};

use ason_base::{NodeId, OutOfMemory};
use byteorder::{BigEndian, ByteOrder};

/// The tunnel that a message is about: its egress, its number at the ingress, and the extended tunnel id.
#[derive(Clone, Copy, Drop)]
pub struct Session {
    pub endpoint: NodeId,
    pub tunnel: u16,
    pub extended: u32,
}

/// The session of a SESSION's body. None exactly where the body is none.
pub fn read_session(body: &[u8]) -> Option<Session>
    ensures { Reads (IsSession body.now) result }
{
    if body.len() != 12 {
        return None;
    }
    Some(Session {
        endpoint: NodeId(BigEndian::read_u32(body)),
        tunnel: BigEndian::read_u16(&body[6..]),
        extended: BigEndian::read_u32(&body[8..]),
    })
}

/// The SESSION object.
fn object_of(x: &Session) -> [u8; 16]
    ensures { result ≡ object 1 7 (session_bytes x.now) }
{
    let mut bytes = [0, 16, 1, 7, 0, 0, 0, 0, 0, 0, 0, 0, 0, 0, 0, 0];
    BigEndian::write_u32(&mut bytes[4..], x.endpoint.0);
    BigEndian::write_u16(&mut bytes[10..], x.tunnel);
    BigEndian::write_u32(&mut bytes[12..], x.extended);
    bytes
}

/// Appends the SESSION object.
pub fn write_session(out: &mut Vec<u8>, x: &Session) -> Result<(), OutOfMemory>
    ensures { AppendsBytes out.old out.new (object 1 7 (session_bytes x.now)) result }
{
    out.extend_from_slice(&object_of(x))?;
    Ok(())
}

/// Law: what is written of a session is read as that session again.
pub fn sessions_come_back()
    ensures { (s : Session) → s.endpoint.0 < 2 ^ 32 → s.tunnel < 2 ^ 16 → s.extended < 2 ^ 32
        → IsSession (session_bytes s) s }
{}

//! ERROR_SPEC (RFC 2205, appendix A.5), also with an interface (RFC 3473, section 8.2.1).

ghost use Rattle.std.specs.Prelude.{◌≡◌, ◌≤◌, length, None, Some};
ghost use Rattle.wire_buf.specs.{Codecs.{AppendsBytes, Reads}, Objects.object};
ghost use Rattle.rsvp_objects.specs.{declared.error.ErrorSpec.ErrorSpec, Bodies.{HasWidths, IsError, IsErrorIpv4, error_bytes, spec_at, spec_bytes}};

use crate::tlv::{if_index, if_index_bytes};
use ason_base::{ErrCode, LinkId, NodeId, OutOfMemory};
use byteorder::{BigEndian, ByteOrder};

const IPV4: u8 = 1;

const IF_ID: u8 = 3;

/// An error: the node that found it, flags, its code, and the link that it is about, if any.
#[derive(Clone, Copy, Drop)]
pub struct ErrorSpec {
    pub node: NodeId,
    pub flags: u8,
    pub code: ErrCode,
    pub link: Option<LinkId>,
}

fn spec_of(body: &[u8], link: Option<LinkId>) -> ErrorSpec
    requires { 8 ≤ length body.now }
    ensures { result ≡ spec_at body.now link }
{
    ErrorSpec {
        node: NodeId(BigEndian::read_u32(body)),
        flags: body[4],
        code: ErrCode {
            code: body[5],
            value: BigEndian::read_u16(&body[6..]),
        },
        link,
    }
}

/// The fields of an error beside its link.
fn spec_bytes(x: &ErrorSpec) -> [u8; 8]
    ensures { result ≡ spec_bytes x.now }
{
    let [flags] = x.flags.to_be_bytes();
    let [code] = x.code.code.to_be_bytes();
    let mut bytes = [0, 0, 0, 0, flags, code, 0, 0];
    BigEndian::write_u32(&mut bytes, x.node.0);
    BigEndian::write_u16(&mut bytes[6..], x.code.value);
    bytes
}

/// The ERROR_SPEC object of this C-Type without TLVs.
fn plain_object(ctype: u8, x: &ErrorSpec) -> [u8; 12]
    ensures { result ≡ object 6 ctype (spec_bytes x.now) }
{
    let mut bytes = [0, 12, 6, ctype, 0, 0, 0, 0, 0, 0, 0, 0];
    bytes[4..].copy_from_slice(&spec_bytes(x));
    bytes
}

fn write_plain(out: &mut Vec<u8>, ctype: u8, x: &ErrorSpec) -> Result<(), OutOfMemory>
    ensures { AppendsBytes out.old out.new (object 6 ctype (spec_bytes x.now)) result }
{
    out.extend_from_slice(&plain_object(ctype, x))?;
    Ok(())
}

/// The ERROR_SPEC object with the IF_INDEX of the link.
fn object_with_link(x: &ErrorSpec, link: LinkId) -> [u8; 24]
    requires { x.now.link ≡ Some link }
    ensures { result ≡ object 6 3 (error_bytes x.now) }
{
    let mut bytes = [0; 24];
    bytes[..4].copy_from_slice(&[0, 24, 6, IF_ID]);
    bytes[4..12].copy_from_slice(&spec_bytes(x));
    bytes[12..].copy_from_slice(&if_index_bytes(x.node, link));
    bytes
}

fn write_with_link(out: &mut Vec<u8>, x: &ErrorSpec, link: LinkId) -> Result<(), OutOfMemory>
    requires { x.now.link ≡ Some link }
    ensures { AppendsBytes out.old out.new (object 6 3 (error_bytes x.now)) result }
{
    out.extend_from_slice(&object_with_link(x, link))?;
    Ok(())
}

/// The error of an ERROR_SPEC's body with an interface. None exactly where the body is none, as where it has two
/// IF_INDEXes.
pub fn read_error(body: &[u8]) -> Option<ErrorSpec>
    ensures { Reads (IsError body.now) result }
{
    if body.len() < 8 {
        return None;
    }
    match if_index(&body[8..]) {
        Some(link) => Some(spec_of(body, link)),
        None => None,
    }
}

/// Appends the ERROR_SPEC object with an interface: an IF_INDEX where the error has a link, and no TLV where it has
/// none.
pub fn write_error(out: &mut Vec<u8>, x: &ErrorSpec) -> Result<(), OutOfMemory>
    ensures { AppendsBytes out.old out.new (object 6 3 (error_bytes x.now)) result }
{
    match x.link {
        None => write_plain(out, IF_ID, x),
        Some(link) => write_with_link(out, x, link),
    }
}

/// The error of an ERROR_SPEC's body without an interface. None exactly where the body is none.
pub fn read_error_ipv4(body: &[u8]) -> Option<ErrorSpec>
    ensures { Reads (IsErrorIpv4 body.now) result }
{
    if body.len() != 8 {
        return None;
    }
    Some(spec_of(body, None))
}

/// Appends the ERROR_SPEC object without an interface.
pub fn write_error_ipv4(out: &mut Vec<u8>, x: &ErrorSpec) -> Result<(), OutOfMemory>
    requires { x.now.link ≡ None }
    ensures { AppendsBytes out.old out.new (object 6 1 (spec_bytes x.now)) result }
{
    write_plain(out, IPV4, x)
}

/// Law: what is written of an error is read as that error again.
pub fn errors_come_back()
    ensures if_id { (e : ErrorSpec) → HasWidths e → IsError (error_bytes e) e }
    ensures ipv4 { (e : ErrorSpec) → HasWidths e → e.link ≡ None → IsErrorIpv4 (spec_bytes e) e }
{}

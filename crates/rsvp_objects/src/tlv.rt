//! The IF_INDEX among the TLVs of an interface (RFC 3471, section 9.1).

ghost use Rattle.std.specs.{Prelude.{◌≡◌, [], ◌∷◌, length}, Option.option_to_list};
ghost use Rattle.wire_buf.specs.Codecs.{Reads};
ghost use Rattle.rsvp_objects.specs.Tlvs.{HasIfIndexes, if_index_bytes, link_in};

use ason_base::{LinkId, NodeId};
use byteorder::{BigEndian, ByteOrder};
use wire_buf::at_most_one;

/// The type of an IF_INDEX.
const IF_INDEX: u16 = 3;

/// How many bytes a TLV's length counts beside its value.
const HEADER: usize = 4;

fn link_of(value: &[u8]) -> LinkId
    requires { length value.now ≡ 8 }
    ensures { result ≡ link_in value.now }
{
    LinkId(BigEndian::read_u32(&value[4..]))
}

/// The interface id of the IF_INDEX among the TLVs, if there is one. None exactly where the bytes aren't TLVs, an
/// IF_INDEX isn't of eight bytes, or there are two.
pub(crate) fn if_index(tlvs: &[u8]) -> Option<Option<LinkId>>
    ensures { Reads (λ link. HasIfIndexes tlvs.now (option_to_list link)) result }
{
    match at_most_one(tlvs, HEADER, IF_INDEX)? {
        None => Some(None),
        Some(value) if value.len() == 8 => Some(Some(link_of(value))),
        Some(_) => None,
    }
}

/// The interface id of the one IF_INDEX among the TLVs. None exactly where there isn't one, as `if_index` counts.
pub(crate) fn one_if_index(tlvs: &[u8]) -> Option<LinkId>
    ensures { Reads (λ link. HasIfIndexes tlvs.now (link ∷ [])) result }
{
    match if_index(tlvs) {
        Some(link) => link,
        None => None,
    }
}

/// The IF_INDEX of this node and this link.
pub(crate) fn if_index_bytes(node: NodeId, link: LinkId) -> [u8; 12]
    ensures { result ≡ if_index_bytes node link }
{
    let mut bytes = [0, 0, 0, 12, 0, 0, 0, 0, 0, 0, 0, 0];
    BigEndian::write_u16(&mut bytes, IF_INDEX);
    BigEndian::write_u32(&mut bytes[4..], node.0);
    BigEndian::write_u32(&mut bytes[8..], link.0);
    bytes
}

//! Reading rows.

ghost use Rattle.std.specs.Prelude.{◌≡◌, ℕ, length, IfSome, IfNone, IsTrue, SomeIff, false};
ghost use Rattle.byteorder.specs.Endian.{big_number};
ghost use Rattle.ason_base.specs.declared.network.TeRow.{TeRow};
ghost use Rattle.wire_buf.specs.Codecs.{Decodes};
ghost use Rattle.te_tlv.specs.{Rows.{HasFields, HasLink, HasMetric, HasPeer, IsPointToPoint, SpellsRow}, Found.OfFound};

use crate::found::{Found, Needed, scan};
use crate::srlgs::srlgs_of;
use crate::sub_tlvs::link_body;
use ason_base::limits::MOST_METRIC;
use ason_base::{DecodeError, LinkId, NodeId, TeRow};
use byteorder::{BigEndian, ByteOrder};
use std::alloc::Global;

/// The types of the sub-TLVs that each row has, and the link type of a point-to-point link (RFC 3630, section 2.5; RFC
/// 4203, section 1.1).
pub(crate) const LINK_TYPE: u16 = 1;

pub(crate) const LINK_ID: u16 = 2;

pub(crate) const METRIC: u16 = 5;

pub(crate) const IDENTIFIERS: u16 = 11;

const POINT_TO_POINT: u8 = 1;

/// The number of a value of four bytes.
fn number(value: &[u8]) -> Option<u32>
    ensures { SomeIff result (length value.now ≡ 4) (big_number 4 value.now) }
{
    if value.len() == 4 {
        Some(BigEndian::read_u32(value))
    } else {
        None
    }
}

fn is_point_to_point(found: &Found) -> bool
    ensures yes { IsTrue result → OfFound found.now (λ subs. IsPointToPoint subs) }
    ensures no { result ≡ false → OfFound found.now (λ subs. ¬ IsPointToPoint subs) }
{
    match found.value(Needed::LinkType) {
        Some(value) => value.len() == 1 && value[0] == POINT_TO_POINT,
        None => false,
    }
}

/// The node at the other end.
fn peer(origin: NodeId, found: &Found) -> Option<u32>
    ensures found { IfSome result (λ n. OfFound found.now (λ subs. HasPeer origin subs n)) }
    ensures none { IfNone result (OfFound found.now (λ subs. (n : ℕ) → ¬ HasPeer origin subs n)) }
{
    let peer = number(found.value(Needed::LinkId)?)?;
    if peer == origin.0 { None } else { Some(peer) }
}

fn metric(found: &Found) -> Option<u32>
    ensures found { IfSome result (λ n. OfFound found.now (λ subs. HasMetric subs n)) }
    ensures none { IfNone result (OfFound found.now (λ subs. (n : ℕ) → ¬ HasMetric subs n)) }
{
    let metric = number(found.value(Needed::Metric)?)?;
    if metric < 1 || metric > MOST_METRIC {
        None
    } else {
        Some(metric)
    }
}

/// The link's number, which both identifiers are.
fn link(found: &Found) -> Option<u32>
    ensures found { IfSome result (λ n. OfFound found.now (λ subs. HasLink subs n)) }
    ensures none { IfNone result (OfFound found.now (λ subs. (n : ℕ) → ¬ HasLink subs n)) }
{
    let value = found.value(Needed::Identifiers)?;
    if value.len() != 8 {
        return None;
    }
    let local = BigEndian::read_u32(value);
    if BigEndian::read_u32(&value[4..]) == local {
        Some(local)
    } else {
        None
    }
}

/// What each row has beside its SRLGs: the number of the node at the other end, the metric and the link's number.
#[derive(Clone, Copy)]
struct Fields {
    peer: u32,
    metric: u32,
    link: u32,
}

fn read_fields(origin: NodeId, found: &Found) -> Option<Fields>
    ensures found { IfSome result (λ f. OfFound found.now
        (λ subs. HasFields origin subs f.peer f.metric f.link)) }
    ensures none { IfNone result (OfFound found.now
        (λ subs. (peer metric link : ℕ) → ¬ HasFields origin subs peer metric link)) }
{
    let link = link(found)?;
    let metric = metric(found)?;
    let peer = peer(origin, found)?;
    if is_point_to_point(found) {
        Some(Fields { peer, metric, link })
    } else {
        None
    }
}

/// The row that a Link TLV of this origin spells. NotMessage exactly where the bytes spell none.
pub fn read_row(alloc: Global, origin: NodeId, bytes: &[u8]) -> Result<TeRow, DecodeError>
    ensures { Decodes (SpellsRow origin bytes.now) result }
{
    let Some(body) = link_body(bytes) else {
        return Err(DecodeError::NotMessage);
    };
    let Some(found) = scan(body) else {
        return Err(DecodeError::NotMessage);
    };
    let Some(fields) = read_fields(origin, &found) else {
        return Err(DecodeError::NotMessage);
    };
    let srlgs = srlgs_of(alloc, &found)?;
    Ok(TeRow {
        link: LinkId(fields.link),
        low: NodeId(origin.0.min(fields.peer)),
        high: NodeId(origin.0.max(fields.peer)),
        metric: fields.metric,
        srlgs,
    })
}

//! Sub-TLVs, looked up by type (RFC 3630, section 2.3.2).

ghost use Rattle.std.specs.Prelude.{◌≡◌, List, drop, IfSome, IfNone};
ghost use Rattle.wire_buf.specs.Tlvs.{TypeValue};
ghost use Rattle.te_tlv.specs.SubTlvs.{IsLinkTlv, OfSubTlvs};

use wire_buf::Cursor;

/// The type of a Link TLV.
pub(crate) const LINK: u16 = 2;

/// How many bytes the length of a TLV counts beside its value.
pub(crate) const UNCOUNTED: usize = 0;

/// The sub-TLVs of a Link TLV, as one text. None where the bytes are no Link TLV.
pub(crate) fn link_body(bytes: &[u8]) -> Option<&[u8]>
    ensures found { IfSome result (λ body. OfSubTlvs body.now (λ subs. IsLinkTlv bytes.now subs)) }
    ensures same { IfSome result (λ body. body.now ≡ drop 4 bytes.now) }
    ensures none { IfNone result ((subs : List TypeValue) → ¬ IsLinkTlv bytes.now subs) }
{
    let mut cursor = Cursor::new(bytes);
    let kind = cursor.u16()?;
    let len = usize::from(cursor.u16()?);
    let body = cursor.take(len)?;
    if kind == LINK && cursor.is_empty() {
        Some(body)
    } else {
        None
    }
}

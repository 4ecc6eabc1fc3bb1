//! TLVs, looked up by type (RFC 3471, section 9.1; RFC 3630, section 2.3.2).

ghost use Rattle.std.specs.{Prelude.{◌≡◌, ◌≤◌, List, drop, length, IfNone, IfSome}, Option.{option_copied, option_to_list}};
ghost use Rattle.wire_buf.specs.Tlvs.{AreTlvs, BeginsTlv, OfTlvs, TypeValue, tlv_size, values_of};

use crate::cursor::Cursor;

/// The type and the value of the next TLV, whose length counts so many bytes beside the value. None exactly where there is
/// none; then the cursor may be anywhere.
pub fn next_tlv<'a>(cursor: &mut Cursor<'a>, counted: usize) -> Option<(u16, &'a [u8])>
    ensures found { IfSome result (λ t. BeginsTlv counted cursor.old
        (record { kind = t.0; value = t.1.now })) }
    ensures left { IfSome result (λ t. cursor.new ≡ drop
        (tlv_size (record { kind = t.0; value = t.1.now })) cursor.old) }
    ensures none { IfNone result ((t : TypeValue) → ¬ BeginsTlv counted cursor.old t) }
{
    let kind = cursor.u16()?;
    let len = usize::from(cursor.u16()?).checked_sub(counted)?;
    let padded = cursor.take(len.next_multiple_of(4))?;
    Some((kind, &padded[..len]))
}

/// The value of the one TLV of this type, where there is one. None exactly where the bytes aren't TLVs whose lengths
/// count so many bytes beside the value, or where two are of this type.
pub fn at_most_one<'a>(bytes: &'a [u8], counted: usize, kind: u16) -> Option<Option<&'a [u8]>>
    ensures some { IfSome result (λ _. (ts : List TypeValue) × AreTlvs counted bytes.now ts) }
    ensures value { IfSome result (λ value.
        OfTlvs counted bytes.now (λ ts. values_of kind ts ≡ option_to_list (option_copied value))) }
    ensures none { IfNone result (OfTlvs counted bytes.now (λ ts. 2 ≤ length (values_of kind ts))) }
{
    let mut cursor = Cursor::new(bytes);
    let mut found = None;
    'tlvs: while !cursor.is_empty() {
        let Some((next, value)) = next_tlv(&mut cursor, counted) else {
            return None;
        };
        if next == kind {
            if found.is_some() {
                return None;
            }
            found = Some(value);
        }
    }
    Some(found)
}

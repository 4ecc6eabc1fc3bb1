//! What one pass over the sub-TLVs of a row finds.

ghost use Rattle.std.specs.{Prelude.{◌≡◌, List, ℕ, IfNone, IfSome, IsTrue, false}, Option.option_copied};
ghost use Rattle.wire_buf.specs.Tlvs.{TypeValue};
ghost use Rattle.te_tlv.specs.{Found.{AreFound, HasAnother, HasKeptSub, IsAnother, IsSubKept, OfFound, StandOnce, found_of, needed_type}, Rows.IsOnly, SubTlvs.{AreSubTlvs, OfSubTlvs}};

use crate::reading::{IDENTIFIERS, LINK_ID, LINK_TYPE, METRIC};
use crate::srlgs::SRLG;
use crate::sub_tlvs::UNCOUNTED;
use wire_buf::{Cursor, next_tlv};

/// A sub-TLV that each row has.
#[derive(Clone, Copy)]
pub(crate) enum Needed {
    LinkType,
    LinkId,
    Metric,
    Identifiers,
}

/// The value of each sub-TLV that a row reads, where there is one.
#[derive(Clone, Copy, Drop)]
pub(crate) struct Found<'a> {
    link_type: Option<&'a [u8]>,
    link_id: Option<&'a [u8]>,
    metric: Option<&'a [u8]>,
    identifiers: Option<&'a [u8]>,
    pub(crate) srlgs: Option<&'a [u8]>,
}

// Keeps the value where its type is the one that is wanted. False: one of this type was kept before.
fn keep<'a>(found: &mut Option<&'a [u8]>, wanted: u16, kind: u16, value: &'a [u8]) -> bool
    ensures kept { IsTrue result →
        IsSubKept wanted kind value.now (option_copied found.old) (option_copied found.new) }
    ensures twice { result ≡ false → IsAnother wanted kind (option_copied found.old) }
{
    if kind != wanted {
        return true;
    }
    if found.is_some() {
        return false;
    }
    *found = Some(value);
    true
}

impl<'a> Found<'a> {
    // Keeps the value of a sub-TLV of this type, where a row reads it. False: one of this type was kept before.
    fn keep(&mut self, kind: u16, value: &'a [u8]) -> bool
        ensures kept { IsTrue result → HasKeptSub kind value.now self.old self.new }
        ensures twice { result ≡ false → HasAnother kind self.old }
    {
        keep(&mut self.link_type, LINK_TYPE, kind, value)
            && keep(&mut self.link_id, LINK_ID, kind, value)
            && keep(&mut self.metric, METRIC, kind, value)
            && keep(&mut self.identifiers, IDENTIFIERS, kind, value)
            && keep(&mut self.srlgs, SRLG, kind, value)
    }

    // What was found of the sub-TLV.
    fn read(&self, needed: Needed) -> Option<&'a [u8]>
        ensures { option_copied result ≡ found_of self.now needed }
    {
        match needed {
            Needed::LinkType => self.link_type,
            Needed::LinkId => self.link_id,
            Needed::Metric => self.metric,
            Needed::Identifiers => self.identifiers,
        }
    }

    /// The value of the sub-TLV.
    pub(crate) fn value(&self, needed: Needed) -> Option<&'a [u8]>
        ensures value { IfSome result
            (λ value. OfFound self.now (λ subs. IsOnly (needed_type needed) subs value.now)) }
        ensures none { IfNone result
            (OfFound self.now (λ subs. (value : List ℕ) → ¬ IsOnly (needed_type needed) subs value)) }
    {
        self.read(needed)
    }
}

/// What these bytes have of the sub-TLVs that a row reads. None exactly where they aren't sub-TLVs, or one that a row
/// reads stands there twice.
pub(crate) fn scan<'a>(body: &'a [u8]) -> Option<Found<'a>>
    ensures some { IfSome result (λ _. (subs : List TypeValue) × AreSubTlvs body.now subs) }
    ensures found { IfSome result (λ f. OfSubTlvs body.now (AreFound f)) }
    ensures none { IfNone result (OfSubTlvs body.now (λ subs. ¬ StandOnce subs)) }
{
    let mut cursor = Cursor::new(body);
    let mut found = Found {
        link_type: None,
        link_id: None,
        metric: None,
        identifiers: None,
        srlgs: None,
    };
    'tlvs: while !cursor.is_empty() {
        let Some((kind, value)) = next_tlv(&mut cursor, UNCOUNTED) else {
            return None;
        };
        if !found.keep(kind, value) {
            return None;
        }
    }
    Some(found)
}

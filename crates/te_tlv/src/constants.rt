//! The numbers that definitions take from constants.

ghost use Rattle.std.specs.Prelude.{◌≡◌};
ghost use Rattle.te_tlv.specs.{declared.reading.TheConstants.{IDENTIFIERS, LINK_ID, LINK_TYPE, METRIC, POINT_TO_POINT}, declared.srlgs.TheConstants.SRLG, declared.sub_tlvs.TheConstants.LINK};

/// Law: the Link TLV is of type 2 (RFC 3630, section 2.4), its sub-TLVs of the types 1, 2, 5 (section 2.5), 11 and 16
/// (RFC 4203, section 1), and link type 1 is point-to-point.
pub fn types()
    ensures link { LINK ≡ 2 }
    ensures link_type { LINK_TYPE ≡ 1 }
    ensures point_to_point { POINT_TO_POINT ≡ 1 }
    ensures link_id { LINK_ID ≡ 2 }
    ensures metric { METRIC ≡ 5 }
    ensures identifiers { IDENTIFIERS ≡ 11 }
    ensures srlg { SRLG ≡ 16 }
{}

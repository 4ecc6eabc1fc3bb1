//! Laws of frames.

ghost use Rattle.flood.specs.Cuts.{PrefixesSpellNothing};

/// A frame that spells something spells nothing any more once its last bytes are cut off, as many as there are: a
/// message tells its length in its header (RFC 2205, section 3.1.1), and a flood's row in its TLV.
pub fn every_cut()
    ensures { PrefixesSpellNothing }
{}

//! Laws of Link TLVs.

ghost use Rattle.std.specs.Prelude.{◌≡◌, List, ℕ};
ghost use Rattle.ason_base.specs.{declared.ids.NodeId.NodeId, declared.network.TeRow.TeRow};
ghost use Rattle.te_tlv.specs.{Rows.SpellsRow, Written.{HasNumbers, IsRowWritable, link_tlv}};

/// What is written of a row spells that row, and no bytes of one origin spell two rows.
pub fn rows_come_back()
    ensures written { (origin : NodeId) (row : TeRow) → IsRowWritable origin row → HasNumbers row
        → SpellsRow origin (link_tlv origin row) row }
    ensures once { (origin : NodeId) (bytes : List ℕ) (a b : TeRow) → SpellsRow origin bytes a
        → SpellsRow origin bytes b → a ≡ b }
{}

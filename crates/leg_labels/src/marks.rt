//! The marks of other legs at the owner, on the labels that a leg uses.

ghost use Rattle.std.specs.Prelude.{◌≡◌};
ghost use Rattle.leg_labels.specs.LegMarks.{is_lit_at, is_lit_over};

use ason_base::{Fibre, Label, Leg, Lsp};
use link_owner::Owner;
use mesh_rules::links::reverse_of;

// Whether another LSP's mark is on the label, if there is one.
fn is_lit_at(owner: &Owner, lsp: Lsp, fibre: Option<Fibre>, label: Option<Label>) -> bool
    ensures { result ≡ is_lit_at owner.now.marks lsp fibre label }
{
    let (Some(fibre), Some(label)) = (fibre, label) else {
        return false;
    };
    match owner.lit(fibre, label) {
        None => false,
        Some(other) => other != lsp,
    }
}

/// Whether another LSP's mark is on a label that the leg uses.
pub(crate) fn is_lit_over(owner: &Owner, leg: &Leg) -> bool
    ensures { result ≡ is_lit_over owner.now.marks leg.now }
{
    is_lit_at(owner, leg.lsp, leg.in_fibre, leg.in_label)
        || is_lit_at(owner, leg.lsp, reverse_of(leg.out_fibre), leg.back_in)
        || is_lit_at(owner, leg.lsp, leg.out_fibre, leg.out_label)
        || is_lit_at(owner, leg.lsp, reverse_of(leg.in_fibre), leg.back_out)
}

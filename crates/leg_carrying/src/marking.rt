//! The marks of a node's legs at the owner: on each label that a leg uses, as long as it is marked.

ghost use Rattle.std.specs.{Prelude.{◌≡◌, None, Some}, Option.option_copied};
ghost use Rattle.mesh_rules.specs.Legs.{is_at, is_marked, reverse_of};
ghost use Rattle.leg_table.specs.LegClaims.{MarksJust, MarksOfLeg, is_marked_on};
ghost use Rattle.leg_labels.specs.LegMarks.{AreOpen, AreThere, Darkens, Lights};
ghost use Rattle.leg_carrying.specs.LegHolds.{IsLegOfLsp};

use ason_base::{Fibre, Label, Leg, Lsp, Phase, Role};
use link_owner::Owner;
use mesh_rules::links::reverse_of;

fn is_marked(leg: &Leg) -> bool
    ensures { result ≡ is_marked leg.now }
{
    matches!(leg.role, Role::Back)
        && matches!(leg.phase, Phase::Armed | Phase::Live | Phase::Falling)
}

// Clears the LSP's mark on the label, if there is one.
fn darken(owner: &mut Owner, lsp: Lsp, fibre: Option<Fibre>, label: Option<Label>)
    requires { AreThere owner.old.marks (is_at fibre label) }
    ensures { Darkens lsp (is_at fibre label) owner.old owner.new }
{
    if let (Some(fibre), Some(label)) = (fibre, label) {
        owner.disarm(fibre, label, lsp);
    }
}

// Clears the marks of the LSP of this leg, which has them.
fn unmark(owner: &mut Owner, leg: &Leg)
    requires { MarksOfLeg leg.now.lsp (Some leg.now) owner.old }
    ensures { MarksJust leg.now.lsp None owner.old owner.new }
{
    if is_marked(leg) {
        darken(owner, leg.lsp, leg.in_fibre, leg.in_label);
        darken(owner, leg.lsp, reverse_of(leg.out_fibre), leg.back_in);
        darken(owner, leg.lsp, leg.out_fibre, leg.out_label);
        darken(owner, leg.lsp, reverse_of(leg.in_fibre), leg.back_out);
    }
}

/// Clears the marks of the LSP, whose leg this is, if it has one.
pub(crate) fn unmark_found(before: Option<&Leg>, owner: &mut Owner, lsp: Lsp)
    requires its { IsLegOfLsp lsp (option_copied before) }
    requires marks { MarksOfLeg lsp (option_copied before) owner.old }
    ensures { MarksJust lsp None owner.old owner.new }
{
    match before {
        None => {}
        Some(leg) => unmark(owner, leg),
    }
}

// Sets the LSP's mark on the label, if there is one. No other LSP's is there.
fn light(owner: &mut Owner, lsp: Lsp, fibre: Option<Fibre>, label: Option<Label>)
    requires there { AreThere owner.old.marks (is_at fibre label) }
    requires free { AreOpen owner.old.marks lsp (is_at fibre label) }
    ensures { Lights lsp (is_at fibre label) owner.old owner.new }
{
    if let (Some(fibre), Some(label)) = (fibre, label) {
        match owner.arm(fibre, label, lsp) {
            Ok(()) => {}
            Err(_) => unreachable!(),
        }
    }
}

// Sets the marks of the leg, whose LSP has none. No other LSP's are there.
fn mark(owner: &mut Owner, leg: &Leg)
    requires none { MarksOfLeg leg.now.lsp None owner.old }
    requires there { AreThere owner.old.marks (λ f x. is_marked_on f x (Some leg.now)) }
    requires free { AreOpen owner.old.marks leg.now.lsp (λ f x. is_marked_on f x (Some leg.now)) }
    ensures { MarksJust leg.now.lsp (Some leg.now) owner.old owner.new }
{
    if is_marked(leg) {
        light(owner, leg.lsp, leg.in_fibre, leg.in_label);
        light(owner, leg.lsp, reverse_of(leg.out_fibre), leg.back_in);
        light(owner, leg.lsp, leg.out_fibre, leg.out_label);
        light(owner, leg.lsp, reverse_of(leg.in_fibre), leg.back_out);
    }
}

/// Clears the marks of the leg's LSP, whose leg before this is, if it has one, and sets those of the leg. No other LSP's
/// are there.
pub(crate) fn remark_found(before: Option<&Leg>, owner: &mut Owner, leg: &Leg)
    requires its { IsLegOfLsp leg.now.lsp (option_copied before) }
    requires marks { MarksOfLeg leg.now.lsp (option_copied before) owner.old }
    requires there { AreThere owner.old.marks (λ f x. is_marked_on f x (Some leg.now)) }
    requires free { AreOpen owner.old.marks leg.now.lsp (λ f x. is_marked_on f x (Some leg.now)) }
    ensures { MarksJust leg.now.lsp (Some leg.now) owner.old owner.new }
{
    unmark_found(before, owner, leg.lsp);
    mark(owner, leg);
}

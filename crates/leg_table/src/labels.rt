//! The labels that legs take.

ghost use Rattle.std.specs.Prelude.{◌≡◌};
ghost use Rattle.mesh_rules.specs.Legs.{is_at, takes};
ghost use Rattle.leg_table.specs.TakenLabels.{taken_back, taken_in, taken_over};

use ason_base::{Fibre, Label, Leg};
use mesh_rules::links::reverse_of;

/// A label that a leg takes, and the fibre that it is on.
#[derive(Clone, Copy, Drop)]
pub struct TakenLabel {
    pub fibre: Fibre,
    pub label: Label,
}

fn taken_over(fibre: Option<Fibre>, label: Option<Label>) -> Option<TakenLabel>
    ensures { result ≡ taken_over fibre label }
{
    let (fibre, label) = fibre.zip(label)?;
    Some(TakenLabel { fibre, label })
}

/// The label in of a leg, and the fibre that it is on; none where it has none.
pub fn taken_in(leg: &Leg) -> Option<TakenLabel>
    ensures { result ≡ taken_in leg.now }
{
    taken_over(leg.in_fibre, leg.in_label)
}

/// The back label in of a leg, and the fibre from its next node that it is on; none where it has none.
pub fn taken_back(leg: &Leg) -> Option<TakenLabel>
    ensures { result ≡ taken_back leg.now }
{
    taken_over(reverse_of(leg.out_fibre), leg.back_in)
}

fn is_at(fibre: Option<Fibre>, label: Option<Label>, taken: &TakenLabel) -> bool
    ensures { result ≡ is_at fibre label taken.now.fibre taken.now.label }
{
    fibre == Some(taken.fibre) && label == Some(taken.label)
}

/// Whether the leg takes the label.
pub fn takes(leg: &Leg, label: &TakenLabel) -> bool
    ensures { result ≡ takes label.now.fibre label.now.label leg.now }
{
    is_at(leg.in_fibre, leg.in_label, label) || is_at(reverse_of(leg.out_fibre), leg.back_in, label)
}

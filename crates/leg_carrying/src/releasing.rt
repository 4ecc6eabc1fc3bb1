//! Labels that legs give up, at the owner and at the shares.

ghost use Rattle.std.specs.{Prelude.{◌≡◌, IfSome, [], not, true}, Option.option_copied};
ghost use Rattle.mesh_rules.specs.Legs.{is_work};
ghost use Rattle.share_check.specs.Guards.{GuardsJust, GuardsNone};
ghost use Rattle.leg_table.specs.LegClaims.{SameFibres, takes_of};
ghost use Rattle.leg_carrying.specs.LegHolds.{GivesUp, IsLegOfLsp, MayGiveUp, MayGiveUpAll, is_lost, is_lost_at};

use ason_base::{Leg, Lsp, Role};
use leg_table::labels::{TakenLabel, taken_back, taken_in, takes};
use link_owner::Owner;
use share_check::Shares;

// A working leg guards none.
fn unguard(shares: &mut Shares, leg: &Leg, label: &TakenLabel)
    requires { is_work leg.now.role ≡ true →
        GuardsNone shares.old label.now.fibre label.now.label leg.now.lsp }
    ensures { GuardsJust label.now.fibre label.now.label leg.now.lsp [] shares.old shares.new }
{
    match leg.role {
        Role::Work => {}
        Role::Back => shares.unguard(label.fibre, label.label, leg.lsp),
    }
}

// Whether the leg after doesn't take the label.
fn is_left(label: &TakenLabel, after: Option<&Leg>) -> bool
    ensures { result ≡ not (takes_of label.now.fibre label.now.label (option_copied after.entry)) }
{
    match after {
        None => true,
        Some(leg) => !takes(leg, label),
    }
}

// The leg gives up this label, if the one after doesn't take it.
fn give_up(
    owner: &mut Owner,
    shares: &mut Shares,
    leg: &Leg,
    label: Option<TakenLabel>,
    after: Option<&Leg>,
)
    requires { IfSome label (λ t. MayGiveUp leg.now owner.old shares.old t.fibre t.label) }
    ensures labels { GivesUp leg.now.lsp (is_lost_at label (option_copied after.entry))
        owner.old.claims owner.new.claims shares.old shares.new }
    ensures marks { owner.new.marks ≡ owner.old.marks }
    ensures fibres { SameFibres owner.old owner.new }
{
    if let Some(label) = label {
        if is_left(&label, after) {
            owner.free(label.fibre, label.label, leg.lsp);
            unguard(shares, leg, &label);
        }
    }
}

/// The labels that the LSP's leg before, if it has one, takes and the one after doesn't are free again, and are guarded
/// by the LSP no more.
pub(crate) fn give_up_lost(
    before: Option<&Leg>,
    owner: &mut Owner,
    shares: &mut Shares,
    lsp: Lsp,
    after: Option<&Leg>,
)
    requires its { IsLegOfLsp lsp (option_copied before) }
    requires may { MayGiveUpAll (option_copied before) owner.old shares.old }
    ensures labels { GivesUp lsp (is_lost (option_copied before.entry) (option_copied after.entry))
        owner.old.claims owner.new.claims shares.old shares.new }
    ensures marks { owner.new.marks ≡ owner.old.marks }
    ensures fibres { SameFibres owner.old owner.new }
{
    if let Some(leg) = before {
        give_up(owner, shares, leg, taken_in(leg), after);
        give_up(owner, shares, leg, taken_back(leg), after);
    }
}

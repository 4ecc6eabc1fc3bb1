//! Labels that legs take, at the owner and at the shares: the one that changes of legs take newly.

ghost use Rattle.std.specs.{Prelude.{◌≡◌, ◌≤◌, None, IfErr, IsTrue, OnErr, OnOk, not}, Option.option_copied};
ghost use Rattle.link_owner.specs.{Claims.{NoClaim, RefusedFor}, Owners.{claims_of, comes_in, has_label, labels_of_fibre}};
ghost use Rattle.mesh_rules.specs.Legs.{find_leg};
ghost use Rattle.share_check.specs.Guards.{GuardsNone};
ghost use Rattle.leg_table.specs.{Edits.leg_put, LegClaims.{GuardsBy, SameFibres, bars, claimed_by}};
ghost use Rattle.leg_carrying.specs.LegHolds.{AreHeld, MayClaim, MayClaimNew, fresh_of, held_of, last_put, new_label, with_new};

use ason_base::{Leg, OutOfMemory, Role};
use leg_table::labels::{TakenLabel, taken_back, taken_in, takes};
use leg_table::leg_map::LegMap;
use link_owner::{ClaimFault, Owner};
use mesh_rules::LegChange;
use share_check::Shares;
use std::alloc::Global;

// The label is given to the leg.
fn give(owner: &mut Owner, alloc: Global, leg: &Leg, label: &TakenLabel) -> Result<(), ClaimFault>
    requires comes_in { IsTrue (comes_in owner.old.claims label.now.fibre) }
    requires within { label.now.label ≤ labels_of_fibre label.now.fibre owner.old.claims }
    requires new { IsTrue
        (not (has_label owner.old.claims label.now.fibre label.now.label leg.now.lsp)) }
    ensures ok { OnOk result (owner.new ≡ claimed_by leg.now label.now owner.old) }
    ensures err { OnErr result (owner.new ≡ owner.old) }
    ensures fault { IfErr result (RefusedFor (bars leg.now.role label.now.label)
        (claims_of label.now.fibre owner.old.claims)) }
{
    match leg.role {
        Role::Work => owner.claim(alloc, label.fibre, label.label, leg.lsp),
        Role::Back => owner.hold(alloc, label.fibre, label.label, leg.lsp),
    }
}

fn claim(owner: &mut Owner, alloc: Global, leg: &Leg, label: &TakenLabel) -> Result<(), OutOfMemory>
    requires comes_in { IsTrue (comes_in owner.old.claims label.now.fibre) }
    requires within { label.now.label ≤ labels_of_fibre label.now.fibre owner.old.claims }
    requires new { IsTrue
        (not (has_label owner.old.claims label.now.fibre label.now.label leg.now.lsp)) }
    requires free { NoClaim (bars leg.now.role label.now.label)
        (claims_of label.now.fibre owner.old.claims) }
    ensures ok { OnOk result (owner.new ≡ claimed_by leg.now label.now owner.old) }
    ensures err { OnErr result (owner.new ≡ owner.old) }
{
    match give(owner, alloc, leg, label) {
        Ok(()) => Ok(()),
        Err(ClaimFault::OutOfMemory) => Err(OutOfMemory),
        Err(ClaimFault::Held(_)) => unreachable!(),
    }
}

// A backup guards the risks that it records, a working leg none.
fn guard(
    shares: &mut Shares,
    alloc: Global,
    leg: &Leg,
    label: &TakenLabel,
) -> Result<(), OutOfMemory>
    requires { GuardsNone shares.old label.now.fibre label.now.label leg.now.lsp }
    ensures ok { OnOk result (GuardsBy leg.now label.now shares.old shares.new) }
    ensures err { OnErr result (shares.new ≡ shares.old) }
{
    match leg.role {
        Role::Work => Ok(()),
        Role::Back => shares.guard(alloc, label.fibre, label.label, leg.lsp, &leg.risks),
    }
}

// The leg takes the label. After want of memory nothing has changed.
fn reserve(
    owner: &mut Owner,
    shares: &mut Shares,
    alloc: Global,
    leg: &Leg,
    label: &TakenLabel,
) -> Result<(), OutOfMemory>
    requires may { MayClaim owner.old leg.now label.now }
    requires new { IsTrue
        (not (has_label owner.old.claims label.now.fibre label.now.label leg.now.lsp)) }
    requires none { GuardsNone shares.old label.now.fibre label.now.label leg.now.lsp }
    ensures ok { OnOk result (owner.new ≡ claimed_by leg.now label.now owner.old) }
    ensures guards { OnOk result (GuardsBy leg.now label.now shares.old shares.new) }
    ensures err { OnErr result (owner.new ≡ owner.old) }
    ensures err_shares { OnErr result (shares.new ≡ shares.old) }
{
    claim(owner, alloc, leg, label)?;
    match guard(shares, alloc, leg, label) {
        Ok(()) => Ok(()),
        Err(fault) => {
            owner.free(label.fibre, label.label, leg.lsp);
            Err(fault)
        }
    }
}

// The label, if the leg before doesn't take it.
fn fresh(before: Option<&Leg>, label: Option<TakenLabel>) -> Option<TakenLabel>
    ensures { result ≡ fresh_of (option_copied before.entry) label }
{
    let label = label?;
    match before {
        None => Some(label),
        Some(before) => {
            if takes(before, &label) {
                None
            } else {
                Some(label)
            }
        }
    }
}

// The label that the leg takes and its LSP's leg doesn't.
fn new_label(legs: &LegMap, leg: &Leg) -> Option<TakenLabel>
    ensures { result ≡ new_label (find_leg leg.now.lsp legs.now.legs) leg.now }
{
    let taken = (taken_in(leg), taken_back(leg));
    if let (None, None) = taken {
        return None;
    }
    let before = legs.get(leg.lsp);
    match fresh(before, taken.0) {
        Some(label) => Some(label),
        None => fresh(before, taken.1),
    }
}

fn leg_put(change: &LegChange) -> Option<&Leg>
    ensures { option_copied result ≡ leg_put change.now }
{
    match change {
        LegChange::Goes(_) => None,
        LegChange::Put(leg) => Some(leg),
    }
}

fn last_put(changes: &[LegChange]) -> Option<&Leg>
    ensures { option_copied result ≡ last_put changes.now }
{
    match changes.last() {
        None => None,
        Some(change) => leg_put(change),
    }
}

/// Reserves the label that the last change takes newly, if there is one. After want of memory nothing has changed.
pub(crate) fn reserve_new(
    legs: &LegMap,
    owner: &mut Owner,
    shares: &mut Shares,
    alloc: Global,
    changes: &[LegChange],
) -> Result<(), OutOfMemory>
    requires held { AreHeld (held_of legs.now.legs) owner.old shares.old }
    requires may { MayClaimNew owner.old legs.now.legs (last_put changes.now) }
    ensures held { OnOk result
        (AreHeld (with_new legs.now.legs (last_put changes.now) (held_of legs.now.legs))
        owner.new shares.new) }
    ensures marks { owner.new.marks ≡ owner.old.marks }
    ensures fibres { SameFibres owner.old owner.new }
    ensures err { OnErr result (owner.new ≡ owner.old) }
    ensures err_shares { OnErr result (shares.new ≡ shares.old) }
{
    let Some(leg) = last_put(changes) else {
        return Ok(());
    };
    let Some(label) = new_label(legs, leg) else {
        return Ok(());
    };
    reserve(owner, shares, alloc, leg, &label)
}

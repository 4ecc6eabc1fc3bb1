//! The risks that are guarded on one label, in order.

ghost use Rattle.std.specs.Prelude.{ℕ, ◌≡◌, ◌≤◌, ◌<◌, ◌+◌, ◌&&◌, ◌||◌, false, true, get_or, length, IfNone, IfSome, OnErr, OnOk, vec_capacity, vec_len};
ghost use Rattle.ason_base.specs.{Lsps.same_lsp, Risks.{AreRising, has_risk}, declared.ids.Lsp.Lsp, declared.risks.Risk.Risk};
ghost use Rattle.share_check.specs.{Guards.{AreRisksInOrder, IsFirstMet, NoneMet, has_guard, is_before, is_guard, unguarded}, declared.guarded.GuardedRisk.GuardedRisk};

use ason_base::{Lsp, OutOfMemory, Risk};
use std::cmp::Ordering;

/// A risk that an LSP guards: the LSP keeps off its label those backups whose primaries have the risk.
#[derive(Clone, Copy, Drop)]
pub struct GuardedRisk {
    pub risk: Risk,
    pub lsp: Lsp,
}

/// A risk that a backup's primary has in common with that of an LSP that has the label.
#[derive(Clone, Copy, Drop)]
pub struct Meets {
    pub risk: Risk,
    pub lsp: Lsp,
}

fn is_before(a: GuardedRisk, b: GuardedRisk) -> bool
    ensures { result ≡ is_before a b }
{
    match a.risk.cmp(&b.risk) {
        Ordering::Less => true,
        Ordering::Equal => a.lsp < b.lsp,
        Ordering::Greater => false,
    }
}

// The place of the first that isn't before this one.
fn place_of(guarded: &[GuardedRisk], sought: GuardedRisk) -> usize
    requires { AreRisksInOrder guarded.now }
    ensures within { result ≤ length guarded.now }
    ensures before { (k : ℕ) (d : GuardedRisk) → k < result →
        is_before (get_or guarded.now k d) sought ≡ true }
    ensures after { (k : ℕ) (d : GuardedRisk) → result ≤ k → k < length guarded.now →
        is_before (get_or guarded.now k d) sought ≡ false }
{
    guarded.partition_point(|one| is_before(*one, sought))
}

// Puts a risk in its place. There is room for it.
fn insert(guarded: &mut Vec<GuardedRisk>, one: GuardedRisk)
    requires ordered { AreRisksInOrder guarded.old.items }
    requires room { vec_len guarded.old < vec_capacity guarded.old }
    ensures ordered { AreRisksInOrder guarded.new.items }
    ensures has { (l : Lsp) (q : Risk) → has_guard l q guarded.new.items ≡
        (is_guard l q one || has_guard l q guarded.old.items) }
    ensures len { vec_len guarded.new ≡ vec_len guarded.old + 1 }
    ensures capacity { vec_capacity guarded.new ≡ vec_capacity guarded.old }
{
    let place = place_of(guarded, one);
    match guarded.insert(place, one) {
        Ok(()) => {}
        Err(_) => unreachable!(),
    }
}

/// The LSP guards these risks too. After want of memory nothing has changed.
pub(crate) fn guard(
    guarded: &mut Vec<GuardedRisk>,
    lsp: Lsp,
    risks: &[Risk],
) -> Result<(), OutOfMemory>
    requires { AreRisksInOrder guarded.old.items }
    ensures ok { OnOk result ((l : Lsp) (q : Risk) → has_guard l q guarded.new.items ≡
        ((has_risk risks.now q && same_lsp lsp l) || has_guard l q guarded.old.items)) }
    ensures ordered { AreRisksInOrder guarded.new.items }
    ensures err { OnErr result (guarded.new.items ≡ guarded.old.items) }
{
    guarded.reserve(risks.len())?;
    for risk in risks {
        insert(guarded, GuardedRisk { risk: *risk, lsp });
    }
    Ok(())
}

/// The LSP guards no risk any more.
pub(crate) fn unguard(guarded: &mut Vec<GuardedRisk>, lsp: Lsp)
    ensures { guarded.new.items ≡ unguarded lsp guarded.old.items }
{
    guarded.retain(|one| one.lsp != lsp);
}

/// The first of the risks that an LSP guards, and the least such LSP. Both lists are walked once, side by side.
pub(crate) fn first_met(guarded: &[GuardedRisk], risks: &[Risk]) -> Option<Meets>
    requires ordered { AreRisksInOrder guarded.now }
    requires rising { AreRising risks.now }
    ensures none { IfNone result (NoneMet guarded.now risks.now) }
    ensures first { IfSome result (IsFirstMet guarded.now risks.now) }
{
    let mut i = 0;
    let mut j = 0;
    while i < risks.len() && j < guarded.len() {
        let one = guarded[j];
        match risks[i].cmp(&one.risk) {
            Ordering::Less => i += 1,
            Ordering::Equal => {
                return Some(Meets {
                    risk: one.risk,
                    lsp: one.lsp,
                });
            }
            Ordering::Greater => j += 1,
        }
    }
    None
}

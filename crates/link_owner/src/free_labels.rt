//! The labels of a fibre that no leg has in some way, each set a mask, so that a label is judged without its claims.

ghost use Rattle.std.specs.Prelude.{◌≡◌, ◌≤◌, ◌++◌, ◌∷◌, [], List, true};
ghost use Rattle.ason_base.specs.declared.ids.Lsp.{Lsp};
ghost use Rattle.link_owner.specs.{Claims.{AreFree, NoClaim, backup_claim, claim_so, freed, is_sought, shareable, unclaimed, with_free, working_claim}, declared.claims.Claim.Claim};

use crate::claims::{Claim, ClaimKind, Sought, has_backup, has_working};
use ason_base::limits::MOST_LABELS;
use ason_base::{Label, LabelSet};

/// The labels from 1 to 80 that no leg has as a working leg, and those that none has as a backup.
#[derive(Drop)]
pub struct FreeLabels {
    of_working: LabelSet,
    of_backups: LabelSet,
}

impl FreeLabels {
    /// No leg has a label.
    pub(crate) fn all() -> FreeLabels
        ensures { AreFree [] result }
    {
        FreeLabels {
            of_working: LabelSet::upto(MOST_LABELS),
            of_backups: LabelSet::upto(MOST_LABELS),
        }
    }

    /// Whether the masks tell that no claim which is looked for has the label.
    pub(crate) fn has(&self, label: Label, sought: Sought) -> bool
        ensures { (claims : List Claim) → AreFree claims self.now → result ≡ true →
            NoClaim (is_sought sought label) claims }
    {
        self.of_working.has(label)
            && match sought {
                Sought::Any => self.of_backups.has(label),
                Sought::AnyWorking => true,
            }
    }

    /// A leg has got the label so.
    pub(crate) fn take(&mut self, label: Label, kind: ClaimKind)
        ensures { (claims : List Claim) (lsp : Lsp) → AreFree claims self.old →
            AreFree (claims ++ claim_so kind label lsp ∷ []) self.new }
    {
        match kind {
            ClaimKind::Working => self.claim(label),
            ClaimKind::Backup => self.hold(label),
        }
    }

    // A working leg has got the label.
    fn claim(&mut self, label: Label)
        ensures { (claims : List Claim) (lsp : Lsp) → AreFree claims self.old →
            AreFree (claims ++ working_claim label lsp ∷ []) self.new }
    {
        self.of_working = self.of_working.without(label);
    }

    // A backup has got the label.
    fn hold(&mut self, label: Label)
        ensures { (claims : List Claim) (lsp : Lsp) → AreFree claims self.old →
            AreFree (claims ++ backup_claim label lsp ∷ []) self.new }
    {
        self.of_backups = self.of_backups.without(label);
    }

    /// An LSP's claim of the label was taken off. The claims are looked through only for what had the label before.
    pub(crate) fn free(&mut self, label: Label, claims: &[Claim])
        ensures { (before : List Claim) (lsp : Lsp) → AreFree before self.old →
            claims.now ≡ freed label lsp before → AreFree claims.now self.new }
    {
        let working = self.of_working.has(label) || !has_working(claims, label);
        let backups = self.of_backups.has(label) || !has_backup(claims, label);
        self.of_working = with_free(&self.of_working, label, working);
        self.of_backups = with_free(&self.of_backups, label, backups);
    }

    /// The labels from 1 to n that no leg has.
    pub(crate) fn unclaimed(&self, n: u8) -> LabelSet
        requires { n ≤ MOST_LABELS }
        ensures { (claims : List Claim) → AreFree claims self.now → result ≡ unclaimed n claims }
    {
        LabelSet::upto(n)
            .meet(&self.of_working)
            .meet(&self.of_backups)
    }

    /// The labels from 1 to n that no working leg has.
    pub(crate) fn shareable(&self, n: u8) -> LabelSet
        requires { n ≤ MOST_LABELS }
        ensures { (claims : List Claim) → AreFree claims self.now → result ≡ shareable n claims }
    {
        LabelSet::upto(n).meet(&self.of_working)
    }
}

// The labels with this one where it is free, and without it where it isn't.
fn with_free(labels: &LabelSet, label: Label, free: bool) -> LabelSet
    ensures { result ≡ with_free labels.now label free }
{
    if free {
        labels.with(label)
    } else {
        labels.without(label)
    }
}

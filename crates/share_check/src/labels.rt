//! The guards of one label of a fibre.

ghost use Rattle.std.specs.Prelude.{◌≡◌, ◌&&◌, ◌||◌, [], IfNone, IfSome, OnErr, OnOk};
ghost use Rattle.ason_base.specs.{Lsps.{same_fibre, same_lsp}, Risks.has_risk, declared.ids.Lsp.Lsp, declared.risks.Risk.Risk};
ghost use Rattle.share_check.specs.Guards.{IsFirstMet, NoneMet, has_guard, is_at, meets, unguarded};

use crate::guarded;
use crate::guarded::{GuardedRisk, Meets, first_met};
use ason_base::{Fibre, Label, Lsp, OutOfMemory, RiskSet};
use std::alloc::Global;
use std::marker::Model;

/// A label of a fibre, and the risks that are guarded on it.
pub struct LabelGuards {
    fibre: Fibre,
    label: Label,
    guarded: Vec<GuardedRisk>,
}

impl Model for LabelGuards {
    ghost use Rattle.share_check.specs.Guards.{AreRisksInOrder, LabelTally};

    ghost Value = { LabelTally };

    ghost view = { λ t. record { fibre = t.fibre; label = t.label; guarded = t.guarded.items } };

    ghost invariant = { λ t. AreRisksInOrder t.guarded.items };
}

impl LabelGuards {
    /// No risk is guarded.
    pub(crate) fn new(alloc: Global, fibre: Fibre, label: Label) -> LabelGuards
        ensures { result ≡ record { fibre = fibre; label = label; guarded = [] } }
    {
        LabelGuards {
            fibre,
            label,
            guarded: Vec::new(alloc),
        }
    }

    pub(crate) fn label(&self) -> Label
        ensures { result ≡ self.now.label }
    {
        self.label
    }

    /// Whether this is the label of the fibre.
    pub(crate) fn is_at(&self, f: Fibre, l: Label) -> bool
        ensures { result ≡ is_at f l self.now }
    {
        self.fibre == f && self.label.number() == l.number()
    }

    /// The LSP guards these risks too. After want of memory nothing has changed.
    pub(crate) fn guard(&mut self, lsp: Lsp, r: &RiskSet) -> Result<(), OutOfMemory>
        ensures label { self.new ≡ record self.old { guarded = self.new.guarded } }
        ensures ok { OnOk result ((l : Lsp) (q : Risk) → has_guard l q self.new.guarded ≡
            ((has_risk r.now q && same_lsp lsp l) || has_guard l q self.old.guarded)) }
        ensures err { OnErr result (self.new ≡ self.old) }
    {
        guarded::guard(&mut self.guarded, lsp, r.items())
    }

    /// The LSP guards no risk any more.
    pub(crate) fn unguard(&mut self, lsp: Lsp)
        ensures { self.new ≡ record self.old { guarded = unguarded lsp self.old.guarded } }
    {
        guarded::unguard(&mut self.guarded, lsp);
    }

    /// The least of the risks that an LSP guards, and the least such LSP.
    pub(crate) fn first_met(&self, r: &RiskSet) -> Option<Meets>
        ensures none { IfNone result (NoneMet self.now.guarded r.now) }
        ensures first { IfSome result (IsFirstMet self.now.guarded r.now) }
    {
        first_met(&self.guarded, r.items())
    }

    // Whether an LSP guards one of the risks.
    fn meets(&self, r: &RiskSet) -> bool
        ensures { result ≡ meets r.now self.now.guarded }
    {
        match self.first_met(r) {
            None => false,
            Some(_) => true,
        }
    }

    /// Whether the label is of this fibre, and an LSP guards one of the risks on it.
    pub(crate) fn bars(&self, f: Fibre, r: &RiskSet) -> bool
        ensures { result ≡ (same_fibre self.now.fibre f && meets r.now self.now.guarded) }
    {
        self.fibre == f && self.meets(r)
    }
}

impl Drop for LabelGuards {
    fn drop(self) {
        let LabelGuards {
            fibre: _,
            label: _,
            guarded: _,
        } = self;
    }
}

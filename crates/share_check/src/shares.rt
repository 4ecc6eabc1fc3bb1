//! Which labels backups may share.

ghost use Rattle.std.specs.{Prelude.{◌≡◌, ◌<◌, [], IfErr, IfNone, IfOk, IfSome, IsTrue, OnErr, OnOk, length, position}, List.position_or_len};
ghost use Rattle.share_check.specs.Guards.{AreTalliesApart, GuardsJust, GuardsNone, IsFirstMet, IsLeastMet, NoneMet, fits, fitting, guarded_at, guards_of, is_at};

use crate::guarded::Meets;
use crate::labels::LabelGuards;
use ason_base::limits::MOST_LABELS;
use ason_base::{Fibre, Label, LabelSet, Lsp, OutOfMemory, RiskSet};
use std::alloc::Global;
use std::marker::Model;

/// The risks that keep backups off labels. Backups may share a label where their primaries have no risk in common, so
/// that no failure of one risk needs the label for both.
pub struct Shares {
    labels: Vec<LabelGuards>,
}

impl Model for Shares {
    ghost use Rattle.std.specs.Prelude.{List};
    ghost use Rattle.share_check.specs.Guards.{AreTalliesApart, Guard, guards_of};

    ghost Value = { List Guard };

    ghost view = { λ s. guards_of s.labels.items };

    ghost invariant = { λ s. AreTalliesApart s.labels.items };
}

impl Shares {
    /// No risk is guarded.
    pub fn new(alloc: Global) -> Shares
        ensures { result ≡ [] }
    {
        Shares {
            labels: Vec::new(alloc),
        }
    }

    /// The LSP, which guarded none there, guards these risks on the label. After want of memory nothing has changed.
    pub fn guard(
        &mut self,
        alloc: Global,
        f: Fibre,
        l: Label,
        lsp: Lsp,
        r: &RiskSet,
    ) -> Result<(), OutOfMemory>
        requires { GuardsNone self.old f l lsp }
        ensures ok { OnOk result (GuardsJust f l lsp r.now self.old self.new) }
        ensures err { OnErr result (self.new ≡ self.old) }
    {
        let place = place_or_new(&mut self.labels, alloc, f, l)?;
        self.labels[place].guard(lsp, r)
    }

    /// The LSP guards no risk on the label any more.
    pub fn unguard(&mut self, f: Fibre, l: Label, lsp: Lsp)
        ensures { GuardsJust f l lsp [] self.old self.new }
    {
        if let Some(place) = place_of(&self.labels, f, l) {
            self.labels[place].unguard(lsp);
        }
    }

    /// Whether a backup whose primary has these risks may have the label. If not, it meets the least of them that an
    /// LSP guards there, and the least such LSP is told.
    pub fn fits(&self, f: Fibre, l: Label, r: &RiskSet) -> Result<(), Meets>
        ensures fits { OnOk result (IsTrue (fits self.now f r.now l)) }
        ensures meets { IfErr result (IsLeastMet self.now f l r.now) }
    {
        match first_met(&self.labels, f, l, r) {
            None => Ok(()),
            Some(meets) => Err(meets),
        }
    }

    /// The labels that a backup whose primary has these risks may have: those from 1 to 80 on which no LSP guards one
    /// of them.
    pub fn fitting(&self, f: Fibre, r: &RiskSet) -> LabelSet
        ensures { result ≡ fitting self.now f r.now }
    {
        let mut labels = LabelSet::upto(MOST_LABELS);
        for guards in &self.labels {
            if guards.bars(f, r) {
                labels = labels.without(guards.label());
            }
        }
        labels
    }
}

impl Drop for Shares {
    fn drop(self) {
        let Shares { labels: _ } = self;
    }
}

// The place of the label, if a risk was ever guarded there.
fn place_of(labels: &[LabelGuards], f: Fibre, l: Label) -> Option<usize>
    ensures { result ≡ position (is_at f l) labels.now }
{
    labels.iter().position(|guards| guards.is_at(f, l))
}

// The place of the label, which is added where no risk was guarded there before.
fn place_or_new(
    labels: &mut Vec<LabelGuards>,
    alloc: Global,
    f: Fibre,
    l: Label,
) -> Result<usize, OutOfMemory>
    requires { AreTalliesApart labels.old.items }
    ensures apart { AreTalliesApart labels.new.items }
    ensures same { guards_of labels.new.items ≡ guards_of labels.old.items }
    ensures place { IfOk result (λ n. position_or_len (is_at f l) labels.new.items ≡ n) }
    ensures within { IfOk result (λ n. n < length labels.new.items) }
{
    if let Some(place) = place_of(labels, f, l) {
        return Ok(place);
    }
    let place = labels.len();
    labels.push(LabelGuards::new(alloc, f, l))?;
    Ok(place)
}

fn first_met(labels: &[LabelGuards], f: Fibre, l: Label, r: &RiskSet) -> Option<Meets>
    ensures none { IfNone result (NoneMet (guarded_at f l labels.now) r.now) }
    ensures first { IfSome result (IsFirstMet (guarded_at f l labels.now) r.now) }
{
    match place_of(labels, f, l) {
        None => None,
        Some(place) => labels[place].first_met(r),
    }
}

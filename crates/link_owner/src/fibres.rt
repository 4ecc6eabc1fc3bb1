//! The claims of the labels of one fibre.

ghost use Rattle.std.specs.Prelude.{◌≡◌, ◌≤◌, ◌++◌, ◌∷◌, [], IfErr, IfNone, IfOk, IfSome, OnErr, OnOk};
ghost use Rattle.ason_base.specs.declared.limits.TheConstants.{MOST_LABELS};
ghost use Rattle.link_owner.specs.Claims.{IsLeastClaim, NoClaim, RefusedFor, barring, claim_so, freed, is_sought, shareable, unclaimed};

use crate::claims::{Claim, ClaimFault, ClaimKind, Sought, barring, is_of_lsp, least_lsp};
use crate::free_labels::FreeLabels;
use ason_base::{Fibre, Label, LabelSet, Lsp, OutOfMemory};
use std::alloc::Global;
use std::marker::Model;

/// A fibre that comes in, and who has its labels.
pub struct FibreOwner {
    fibre: Fibre,
    labels: u8,
    claims: Vec<Claim>,
    free: FreeLabels,
}

impl Model for FibreOwner {
    ghost use Rattle.ason_base.specs.declared.limits.TheConstants.{MOST_LABELS};
    ghost use Rattle.std.specs.Prelude.{◌≤◌};
    ghost use Rattle.link_owner.specs.Claims.{AreFree, FibreClaims};

    ghost Value = { FibreClaims };

    ghost view = { λ r. record { fibre = r.fibre; labels = r.labels; claims = r.claims.items } };

    ghost invariant = { λ r. (r.labels ≤ MOST_LABELS) × AreFree r.claims.items r.free };
}

impl FibreOwner {
    /// No claim.
    pub(crate) fn new(alloc: Global, fibre: Fibre, labels: u8) -> FibreOwner
        requires { labels ≤ MOST_LABELS }
        ensures { result ≡ record { fibre = fibre; labels = labels; claims = [] } }
    {
        FibreOwner {
            fibre,
            labels,
            claims: Vec::new(alloc),
            free: FreeLabels::all(),
        }
    }

    pub(crate) fn fibre(&self) -> Fibre
        ensures { result ≡ self.now.fibre }
    {
        self.fibre
    }

    // The least LSP of the label's claims that are looked for. The claims are looked through only where the masks tell
    // that there may be one.
    fn least_of(&self, label: Label, sought: Sought) -> Option<Lsp>
        ensures none { IfNone result (NoClaim (is_sought sought label) self.now.claims) }
        ensures least { IfSome result (IsLeastClaim (is_sought sought label) self.now.claims) }
    {
        if self.free.has(label, sought) {
            return None;
        }
        least_lsp(&self.claims, label, sought)
    }

    /// Gives the label to a leg that is to have it so, where no claim bars that.
    pub(crate) fn claim(
        &mut self,
        label: Label,
        lsp: Lsp,
        kind: ClaimKind,
    ) -> Result<(), ClaimFault>
        ensures ok { OnOk result
            (self.new ≡ record self.old {
              claims = self.old.claims ++
                  claim_so kind label lsp ∷ [];
            }) }
        ensures err { OnErr result (self.new ≡ self.old) }
        ensures fitting { IfOk result (λ _. NoClaim (is_sought (barring kind) label) self.old.claims) }
        ensures fault { IfErr result (RefusedFor (is_sought (barring kind) label) self.old.claims) }
    {
        if let Some(holder) = self.least_of(label, barring(kind)) {
            return Err(ClaimFault::Held(holder));
        }
        add(&mut self.claims, Claim { label, lsp, kind })?;
        self.free.take(label, kind);
        Ok(())
    }

    /// Takes the LSP's claim off.
    pub(crate) fn free(&mut self, label: Label, lsp: Lsp)
        ensures { self.new ≡ record self.old { claims = freed label lsp self.old.claims } }
    {
        take_off(&mut self.claims, label, lsp);
        self.free.free(label, &self.claims);
    }

    /// The labels that no leg has.
    pub(crate) fn unclaimed(&self) -> LabelSet
        ensures { result ≡ unclaimed self.now.labels self.now.claims }
    {
        self.free.unclaimed(self.labels)
    }

    /// The labels that no working leg has.
    pub(crate) fn shareable(&self) -> LabelSet
        ensures { result ≡ shareable self.now.labels self.now.claims }
    {
        self.free.shareable(self.labels)
    }
}

impl Drop for FibreOwner {
    fn drop(self) {
        let FibreOwner {
            fibre: _,
            labels: _,
            claims: _,
            free: _,
        } = self;
    }
}

fn add(claims: &mut Vec<Claim>, claim: Claim) -> Result<(), ClaimFault>
    ensures ok { OnOk result (claims.new.items ≡ claims.old.items ++ claim ∷ []) }
    ensures err { OnErr result (claims.new.items ≡ claims.old.items) }
    ensures fault { IfErr result (λ e. e ≡ ClaimFault.OutOfMemory) }
{
    match claims.push(claim) {
        Ok(()) => Ok(()),
        Err(_) => Err(ClaimFault::OutOfMemory),
    }
}

fn take_off(claims: &mut Vec<Claim>, label: Label, lsp: Lsp)
    ensures { claims.new.items ≡ freed label lsp claims.old.items }
{
    claims.retain(|claim| !is_of_lsp(claim, label, lsp));
}

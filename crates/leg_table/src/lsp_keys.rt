//! LSPs as numbers.

ghost use Rattle.std.specs.{Prelude.{◌≡◌, true}, Cmp.both_ways};
ghost use Rattle.std.specs.Hash as fed;
ghost use Rattle.std.proofs.Common.{◌∙◌, ap, subst};
ghost use Rattle.ason_base.specs.Lsps.{lsp_before, same_lsp};
ghost use Rattle.leg_table.specs.LspNumbers.{number_of_lsp};
ghost use Rattle.ason_base.proofs.LspOrder.{lsp_order, same_lsp-by, same_lsp-eq, same_lsp-refl};

use crate::keyed::Keyed;
use ason_base::Lsp;
use std::hash::{Hash, Hasher};
use std::marker::Model;

/// An LSP as one number, so that two are compared at once: its ingress in the highest bits, then its tunnel and its own
/// number. Contracts see it as the LSP.
#[derive(Clone, Copy, Drop)]
pub struct LspKey(u64);

impl Model for LspKey {
    ghost use Rattle.ason_base.specs.declared.ids.Lsp.{Lsp};
    ghost use Rattle.leg_table.specs.LspNumbers.{lsp_of_number, number_of_lsp};
    ghost use Rattle.std.specs.Prelude.{◌≡◌};
    ghost use Rattle.std.proofs.Common.{arith};

    ghost Value = { Lsp };

    ghost view = { λ k. lsp_of_number k.0 };

    ghost inverse = { λ l. record { 0 = number_of_lsp l } };

    ghost inverse_ok = { λ a h. let back : number_of_lsp (lsp_of_number a.0) ≡ a.0 = omega arith in
        λ i. record { 0 = back i } };
}

impl LspKey {
    /// The key of this LSP.
    pub fn of(lsp: Lsp) -> LspKey
        ensures { result ≡ lsp }
    {
        let ingress = u64::from(lsp.ingress.0) << 32;
        let tunnel = u64::from(lsp.tunnel) << 16;
        LspKey(ingress + tunnel + u64::from(lsp.lsp))
    }
}

impl PartialEq for LspKey {
    ghost eq = { same_lsp };

    ghost laws = { record {
      symm = λ a b. both_ways (same_lsp a b) (same_lsp b a)
          (λ e. subst (λ x. same_lsp x a ≡ true) (same_lsp-eq a b e) (same_lsp-refl a))
          (λ e. subst (λ x. same_lsp x b ≡ true) (same_lsp-eq b a e) (same_lsp-refl b));
      trans = λ a b c e f. same_lsp-by a b c e ∙ f;
    } };

    fn eq(&self, other: &LspKey) -> bool {
        self.0 == other.0
    }
}

impl Eq for LspKey {
    ghost laws = { record {
      refl = same_lsp-refl;
      symm = λ a b. both_ways (same_lsp a b) (same_lsp b a)
          (λ e. subst (λ x. same_lsp x a ≡ true) (same_lsp-eq a b e) (same_lsp-refl a))
          (λ e. subst (λ x. same_lsp x b ≡ true) (same_lsp-eq b a e) (same_lsp-refl b));
      congr = same_lsp-by;
    } };
}

impl Hash for LspKey {
    ghost hash_input = { λ l. fed.u64 (number_of_lsp l) };

    ghost respects_eq = { λ a b e. ap (λ l. fed.u64 (number_of_lsp l)) (same_lsp-eq a b e) };

    fn hash<H: Hasher>(&self, state: &mut H) {
        self.0.hash(state);
    }
}

impl Keyed for LspKey {
    type Key = LspKey;

    ghost key_of = { λ l. l };

    ghost same = { same_lsp };

    ghost before = { lsp_before };

    fn key(&self) -> LspKey {
        *self
    }

    fn is_same(a: LspKey, b: LspKey) -> bool {
        a.0 == b.0
    }

    fn is_before(a: LspKey, b: LspKey) -> bool {
        a.0 < b.0
    }

    ghost order = { lsp_order };
}

//! The owner of the fibres of a node.

ghost use Rattle.std.specs.Prelude.{◌≡◌, ◌≤◌, ◌<◌, ◌++◌, IfErr, IfOk, IsTrue, OnErr, OnOk, Some, false, length, not, position};
ghost use Rattle.ason_base.specs.{declared.limits.TheConstants.MOST_LABELS, Lsps.same_lsp, Network.touches};
ghost use Rattle.link_owner.specs.{Claims.{NoClaim, RefusedFor, backup_claim, has, shareable, unclaimed, working_claim, works_on}, Marks.{AreDark, dark_fibres, has_fibre_marks, is_marked_fibre, is_open_to, lit, none_lit}, Owners.{DarkensJust, HasFibresInto, HasFibresOf, LightsJust, claim_added, claims_of, comes_in, fibre_unclaimed, has_label, is_fibre, label_freed, labels_of_fibre, none_claimed, unowned}};

use crate::claims::{ClaimFault, ClaimKind};
use crate::fibres::FibreOwner;
use crate::marks::{Busy, MarkedFibre, marks_place};
use ason_base::routes::touches;
use ason_base::{Fibre, Label, LabelSet, LinkSpec, Lsp, NodeId, OutOfMemory, Topology};
use std::alloc::Global;
use std::marker::Model;

/// Who has which label of the fibres that come in at a node, and whose backup is activated on each label of its fibres.
/// The node gives these labels out, and no other does; on those of fibres that go out it has marks alone.
pub struct Owner {
    fibres: Vec<FibreOwner>,
    lit: Vec<MarkedFibre>,
}

impl Model for Owner {
    ghost use Rattle.link_owner.specs.Owners.{OwnerState};

    ghost Value = { OwnerState };

    ghost view = { λ o. record { claims = o.fibres.items; marks = o.lit.items } };
}

impl Owner {
    /// The owner at a node of the topology: no label is claimed, and none has a mark. A number that no node has gives
    /// an owner without fibres.
    pub fn new(alloc: Global, t: &Topology, node: NodeId) -> Result<Owner, OutOfMemory>
        ensures value { IfOk result (λ o. o ≡ unowned t.now node) }
        ensures fibres { IfOk result (λ o. HasFibresInto t.now node o.claims) }
        ensures marked { IfOk result (λ o. HasFibresOf t.now node o.marks) }
        ensures dark { IfOk result (λ o. AreDark o.marks) }
    {
        let fibres = unclaimed_fibres(alloc, t, node)?;
        let lit = dark_fibres(alloc, t, node)?;
        Ok(Owner { fibres, lit })
    }

    // The place of a fibre that comes in.
    fn place(&self, f: Fibre) -> usize
        requires { IsTrue (comes_in self.now.claims f) }
        ensures first { position (is_fibre f) self.now.claims ≡ Some result }
        ensures within { result < length self.now.claims }
    {
        match first_place(&self.fibres, f) {
            None => unreachable!(),
            Some(place) => place,
        }
    }

    // The place of a fibre's marks.
    fn lit_place(&self, f: Fibre) -> usize
        requires { IsTrue (has_fibre_marks self.now.marks f) }
        ensures first { position (is_marked_fibre f) self.now.marks ≡ Some result }
        ensures within { result < length self.now.marks }
    {
        match marks_place(&self.lit, f) {
            None => unreachable!(),
            Some(place) => place,
        }
    }

    /// Gives the label to a working leg. `Held` exactly where a leg has it, with the least such LSP. After an error
    /// nothing has changed.
    pub fn claim(&mut self, _: Global, f: Fibre, l: Label, lsp: Lsp) -> Result<(), ClaimFault>
        requires comes_in { IsTrue (comes_in self.old.claims f) }
        requires label { l ≤ labels_of_fibre f self.old.claims }
        requires new { IsTrue (not (has_label self.old.claims f l lsp)) }
        ensures ok { OnOk result (self.new ≡ record self.old {
          claims = claim_added f (working_claim l lsp) self.old.claims;
        }) }
        ensures err { OnErr result (self.new ≡ self.old) }
        ensures free { IfOk result (λ _. NoClaim (has l) (claims_of f self.old.claims)) }
        ensures fault { IfErr result (RefusedFor (has l) (claims_of f self.old.claims)) }
    {
        let place = self.place(f);
        self.fibres[place].claim(l, lsp, ClaimKind::Working)
    }

    /// Gives the label to a backup leg. `Held` exactly where a working leg has it. After an error nothing has changed.
    pub fn hold(&mut self, _: Global, f: Fibre, l: Label, lsp: Lsp) -> Result<(), ClaimFault>
        requires comes_in { IsTrue (comes_in self.old.claims f) }
        requires label { l ≤ labels_of_fibre f self.old.claims }
        requires new { IsTrue (not (has_label self.old.claims f l lsp)) }
        ensures ok { OnOk result (self.new ≡ record self.old {
          claims = claim_added f (backup_claim l lsp) self.old.claims;
        }) }
        ensures err { OnErr result (self.new ≡ self.old) }
        ensures shareable { IfOk result (λ _. NoClaim (works_on l) (claims_of f self.old.claims)) }
        ensures fault { IfErr result (RefusedFor (works_on l) (claims_of f self.old.claims)) }
    {
        let place = self.place(f);
        self.fibres[place].claim(l, lsp, ClaimKind::Backup)
    }

    /// Takes the LSP's claim off, if it has one.
    pub fn free(&mut self, f: Fibre, l: Label, lsp: Lsp)
        requires { IsTrue (comes_in self.old.claims f) }
        ensures { self.new ≡ record self.old { claims = label_freed f l lsp self.old.claims } }
    {
        let place = self.place(f);
        self.fibres[place].free(l, lsp);
    }

    /// The fibre's labels that no leg has: those that a working leg may take.
    pub fn unclaimed(&self, f: Fibre) -> LabelSet
        requires { IsTrue (comes_in self.now.claims f) }
        ensures { result ≡ unclaimed (labels_of_fibre f self.now.claims) (claims_of f self.now.claims) }
    {
        let place = self.place(f);
        self.fibres[place].unclaimed()
    }

    /// The fibre's labels that no working leg has: those that a backup leg may share.
    pub fn shareable(&self, f: Fibre) -> LabelSet
        requires { IsTrue (comes_in self.now.claims f) }
        ensures { result ≡ shareable (labels_of_fibre f self.now.claims) (claims_of f self.now.claims) }
    {
        let place = self.place(f);
        self.fibres[place].shareable()
    }

    /// The LSP whose backup is activated on the label; none on a fibre that isn't the node's.
    pub fn lit(&self, f: Fibre, l: Label) -> Option<Lsp>
        ensures { result ≡ lit self.now.marks f l }
    {
        match marks_place(&self.lit, f) {
            None => None,
            Some(place) => self.lit[place].lit(l),
        }
    }

    /// Sets the LSP's mark. `Busy` exactly where another LSP's is there, and then nothing has changed.
    pub fn arm(&mut self, f: Fibre, l: Label, lsp: Lsp) -> Result<(), Busy>
        requires there { IsTrue (has_fibre_marks self.old.marks f) }
        ensures ok { OnOk result (LightsJust f l lsp self.old self.new) }
        ensures err { OnErr result (self.new ≡ self.old) }
        ensures free { IfOk result (λ _. IsTrue (is_open_to lsp (lit self.old.marks f l))) }
        ensures busy { IfErr result (λ b. lit self.old.marks f l ≡ Some b.0) }
        ensures other { IfErr result (λ b. same_lsp b.0 lsp ≡ false) }
    {
        let place = self.lit_place(f);
        self.lit[place].arm(l, lsp)
    }

    /// Clears the mark where it is the LSP's.
    pub fn disarm(&mut self, f: Fibre, l: Label, lsp: Lsp)
        requires there { IsTrue (has_fibre_marks self.old.marks f) }
        ensures { DarkensJust f l lsp self.old self.new }
    {
        let place = self.lit_place(f);
        self.lit[place].disarm(l, lsp);
    }
}

impl Drop for Owner {
    fn drop(self) {
        let Owner { fibres: _, lit: _ } = self;
    }
}

fn is_fibre(r: &FibreOwner, f: Fibre) -> bool
    ensures { result ≡ is_fibre f r.now }
{
    r.fibre() == f
}

fn first_place(fibres: &[FibreOwner], f: Fibre) -> Option<usize>
    ensures { result ≡ position (is_fibre f) fibres.now }
{
    fibres.iter().position(|r| is_fibre(r, f))
}

fn unclaimed_fibre(alloc: Global, node: NodeId, link: &LinkSpec) -> FibreOwner
    requires { link.now.labels ≤ MOST_LABELS }
    ensures { result ≡ fibre_unclaimed node link.now }
{
    let fibre = Fibre {
        link: link.id,
        forward: link.high == node,
    };
    FibreOwner::new(alloc, fibre, link.labels)
}

fn unclaimed_fibres(
    alloc: Global,
    t: &Topology,
    node: NodeId,
) -> Result<Vec<FibreOwner>, OutOfMemory>
    ensures value { IfOk result (λ o. o.items ≡ none_claimed t.now node) }
    ensures fibres { IfOk result (λ o. HasFibresInto t.now node o.items) }
{
    let mut fibres = Vec::new(alloc);
    for link in t.links() {
        if touches(node, link) {
            fibres.push(unclaimed_fibre(alloc, node, link))?;
        }
    }
    Ok(fibres)
}

// Both fibres of a link.
fn add_dark(alloc: Global, marks: &mut Vec<MarkedFibre>, link: &LinkSpec) -> Result<(), OutOfMemory>
    ensures { OnOk result (marks.new.items ≡ marks.old.items ++ dark_fibres link.now) }
{
    let link = link.id;
    let ahead = Fibre {
        link,
        forward: true,
    };
    let back = Fibre {
        link,
        forward: false,
    };
    marks.push(MarkedFibre::new(alloc, ahead)?)?;
    marks.push(MarkedFibre::new(alloc, back)?)?;
    Ok(())
}

fn dark_fibres(alloc: Global, t: &Topology, node: NodeId) -> Result<Vec<MarkedFibre>, OutOfMemory>
    ensures value { IfOk result (λ m. m.items ≡ none_lit t.now node) }
    ensures marked { IfOk result (λ m. HasFibresOf t.now node m.items) }
    ensures dark { IfOk result (λ m. AreDark m.items) }
{
    let mut marks = Vec::new(alloc);
    for link in t.links() {
        if touches(node, link) {
            add_dark(alloc, &mut marks, link)?;
        }
    }
    Ok(marks)
}

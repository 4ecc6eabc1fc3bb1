//! Marks: whose backup is activated on each label of a fibre.

ghost use Rattle.std.specs.Prelude.{◌≡◌, IfErr, IfOk, IsTrue, OnErr, OnOk, Some, false, position};
ghost use Rattle.ason_base.specs.Lsps.{same_lsp};
ghost use Rattle.link_owner.specs.Marks.{DarkensLabel, LightsLabel, dark_fibre, is_marked_fibre, is_open_to, lit_on};

use ason_base::limits::MOST_LABELS;
use ason_base::{Fibre, Label, Lsp, OutOfMemory};
use std::alloc::Global;
use std::marker::Model;

/// A place for each label, and one for 0 that is unused.
const PLACES: usize = MOST_LABELS as usize + 1;

/// This other LSP's backup is activated on the label.
#[derive(Clone, Copy, Drop)]
pub struct Busy(pub Lsp);

/// A fibre that comes in or goes out, with a place for the mark of each label, so that a mark takes no memory.
pub struct MarkedFibre {
    fibre: Fibre,
    marks: Vec<Option<Lsp>>,
}

impl Model for MarkedFibre {
    ghost use Rattle.std.specs.Prelude.{◌≡◌, length};
    ghost use Rattle.link_owner.specs.Marks.{FibreMarks};
    ghost use Rattle.link_owner.specs.declared.marks.TheConstants.{PLACES};

    ghost Value = { FibreMarks };

    ghost view = { λ m. record { fibre = m.fibre; lit = m.marks.items } };

    ghost invariant = { λ m. length m.marks.items ≡ PLACES };
}

impl MarkedFibre {
    /// No mark.
    pub(crate) fn new(alloc: Global, fibre: Fibre) -> Result<MarkedFibre, OutOfMemory>
        ensures { IfOk result (λ m. m ≡ dark_fibre fibre) }
    {
        let mut marks = Vec::new(alloc);
        marks.resize(PLACES, None)?;
        Ok(MarkedFibre { fibre, marks })
    }

    fn is(&self, f: Fibre) -> bool
        ensures { result ≡ is_marked_fibre f self.now }
    {
        self.fibre == f
    }

    /// The LSP whose mark is on the label.
    pub(crate) fn lit(&self, label: Label) -> Option<Lsp>
        ensures { result ≡ lit_on label self.now }
    {
        match self.marks.get(label.number() as usize) {
            None => None,
            Some(mark) => *mark,
        }
    }

    /// Sets the LSP's mark. `Busy` exactly where another LSP's is there, and then nothing has changed.
    pub(crate) fn arm(&mut self, label: Label, lsp: Lsp) -> Result<(), Busy>
        ensures ok { OnOk result (LightsLabel label lsp self.old self.new) }
        ensures err { OnErr result (self.new ≡ self.old) }
        ensures free { IfOk result (λ _. IsTrue (is_open_to lsp (lit_on label self.old))) }
        ensures busy { IfErr result (λ b. lit_on label self.old ≡ Some b.0) }
        ensures other { IfErr result (λ b. same_lsp b.0 lsp ≡ false) }
    {
        match self.lit(label) {
            Some(other) if other != lsp => Err(Busy(other)),
            _ => {
                self.marks[label.number() as usize] = Some(lsp);
                Ok(())
            }
        }
    }

    /// Clears the mark where it is the LSP's.
    pub(crate) fn disarm(&mut self, label: Label, lsp: Lsp)
        ensures { DarkensLabel label lsp self.old self.new }
    {
        if self.lit(label) == Some(lsp) {
            self.marks[label.number() as usize] = None;
        }
    }
}

impl Drop for MarkedFibre {
    fn drop(self) {
        let MarkedFibre { fibre: _, marks: _ } = self;
    }
}

/// Where the fibre stands.
pub(crate) fn marks_place(marks: &[MarkedFibre], f: Fibre) -> Option<usize>
    ensures { result ≡ position (is_marked_fibre f) marks.now }
{
    marks.iter().position(|m| m.is(f))
}

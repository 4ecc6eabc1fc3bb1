//! What a node keeps of LSPs and calls, and what it sends.

ghost use Rattle.std.specs.Prelude.{◌≡◌, [], ◌∷◌, ◌++◌, All, IsTrue, OnErr, OnOk};
ghost use Rattle.ason_base.specs.Lsps.{has_fibre, is_other_fibre, without_fibre};

use crate::calls::{CallState, Cause, Phase, Role};
use crate::copied;
use crate::copies::Copied;
use crate::ids::{CallNo, Fibre, Lsp, NodeId, OutOfMemory};
use crate::items::Items;
use crate::labels::{Label, LabelSet};
use crate::messages::{Msg, PathRole};
use crate::risks::RiskSet;
use crate::steps::Steps;
use std::alloc::Global;
use std::marker::Model;

fn is_other_fibre(f: Fibre, g: Fibre) -> bool
    ensures { result ≡ is_other_fibre f g }
{
    f != g
}

/// A list of distinct fibres.
pub struct Fibres {
    fibres: Vec<Fibre>,
}

impl Model for Fibres {
    ghost use Rattle.std.specs.Prelude.{List};
    ghost use Rattle.ason_base.specs.declared.ids.Fibre.{Fibre};

    ghost Value = { List Fibre };

    ghost view = { λ s. s.fibres.items };
}

impl Fibres {
    /// No fibre.
    pub fn new(alloc: Global) -> Fibres
        ensures { result ≡ [] }
    {
        Fibres {
            fibres: Vec::new(alloc),
        }
    }

    /// Adds a fibre that isn't there at the end.
    pub fn push(&mut self, item: Fibre) -> Result<(), OutOfMemory>
        requires { All (λ f. IsTrue (is_other_fibre f item)) self.old }
        ensures ok { OnOk result (self.new ≡ self.old ++ item ∷ []) }
        ensures err { OnErr result (self.new ≡ self.old) }
    {
        self.fibres.push(item)?;
        Ok(())
    }

    pub fn items(&self) -> &[Fibre]
        ensures { result.now ≡ self.now }
    {
        &self.fibres
    }

    /// Whether the fibre is there.
    pub fn has(&self, f: Fibre) -> bool
        ensures { result ≡ has_fibre self.now f }
    {
        self.fibres.iter().any(|g| f == *g)
    }

    /// Takes the fibre off, where it is there.
    pub fn remove(&mut self, f: Fibre)
        ensures { self.new ≡ without_fibre f self.old }
    {
        self.fibres.retain(|g| is_other_fibre(f, *g));
    }
}

impl Copied for Fibres {
    fn copy(&self, alloc: Global) -> Result<Fibres, OutOfMemory> {
        let fibres = Vec::from_slice(alloc, &self.fibres)?;
        Ok(Fibres { fibres })
    }
}

impl Drop for Fibres {
    fn drop(self) {
        let Fibres { fibres: _ } = self;
    }
}

/// One LSP at one node.
pub struct Leg {
    pub lsp: Lsp,
    pub egress: NodeId,
    pub role: Role,
    /// The node before this one; none at the ingress.
    pub prev: Option<NodeId>,
    /// The node after this one; none at the egress.
    pub next: Option<NodeId>,
    pub in_fibre: Option<Fibre>,
    pub out_fibre: Option<Fibre>,
    /// The labels that the side of the ingress allows and that were usable here.
    pub offered: LabelSet,
    /// The labels that were sent on.
    pub sent: LabelSet,
    /// The steps after this node's own.
    pub route: Steps,
    pub path_role: PathRole,
    /// The risks of the primary route, of a backup.
    pub risks: RiskSet,
    pub phase: Phase,
    pub in_label: Option<Label>,
    pub out_label: Option<Label>,
    /// The labels of the backward direction.
    pub back_in: Option<Label>,
    pub back_out: Option<Label>,
}

impl Copied for Leg {
    fn copy(&self, alloc: Global) -> Result<Leg, OutOfMemory> {
        let route = self.route.copy(alloc)?;
        let path_role = self.path_role.copy(alloc)?;
        let risks = self.risks.copy(alloc)?;
        Ok(Leg {
            lsp: self.lsp,
            egress: self.egress,
            role: self.role,
            prev: self.prev,
            next: self.next,
            in_fibre: self.in_fibre,
            out_fibre: self.out_fibre,
            offered: self.offered.copy(),
            sent: self.sent.copy(),
            route,
            path_role,
            risks,
            phase: self.phase,
            in_label: self.in_label,
            out_label: self.out_label,
            back_in: self.back_in,
            back_out: self.back_out,
        })
    }
}

impl Drop for Leg {
    fn drop(self) {
        let Leg {
            lsp: _,
            egress: _,
            role: _,
            prev: _,
            next: _,
            in_fibre: _,
            out_fibre: _,
            offered: _,
            sent: _,
            route: _,
            path_role: _,
            risks: _,
            phase: _,
            in_label: _,
            out_label: _,
            back_in: _,
            back_out: _,
        } = self;
    }
}

/// A call at its ingress (ITU-T G.8080, call controller).
pub struct CallRec {
    pub call: CallNo,
    pub egress: NodeId,
    pub protected: bool,
    /// The backup route that was given.
    pub backup: Option<Steps>,
    pub state: CallState,
    pub work: Option<Lsp>,
    pub back: Option<Lsp>,
    /// The fibres of the working LSP that were reported down.
    pub work_reports: Fibres,
    /// The fibres of the backup LSP that were reported down.
    pub back_reports: Fibres,
    pub cause: Cause,
    /// The ticks that the call has waited to be restored.
    pub ticks: u32,
}

impl Copied for CallRec {
    fn copy(&self, alloc: Global) -> Result<CallRec, OutOfMemory> {
        copied!(self, alloc; CallRec {
            call, egress, protected, state, work, back, cause, ticks;
            backup, work_reports, back_reports
        })
    }
}

impl Drop for CallRec {
    fn drop(self) {
        let CallRec {
            call: _,
            egress: _,
            protected: _,
            backup: _,
            state: _,
            work: _,
            back: _,
            work_reports: _,
            back_reports: _,
            cause: _,
            ticks: _,
        } = self;
    }
}

/// A message, and the neighbour that it goes to.
pub struct Out {
    pub to: NodeId,
    pub msg: Msg,
}

impl Out {
    /// The neighbour, and the message.
    pub fn into_parts(self) -> (NodeId, Msg)
        ensures { result ≡ record { 0 = self.to; 1 = self.msg } }
    {
        let Out { to, msg } = self;
        (to, msg)
    }
}

impl Copied for Out {
    fn copy(&self, alloc: Global) -> Result<Out, OutOfMemory> {
        copied!(self, alloc; Out { to; msg })
    }
}

impl Drop for Out {
    fn drop(self) {
        let Out { to: _, msg: _ } = self;
    }
}

/// The messages of a step, in order.
pub type Outs = Items<Out>;

//! What a rule answers: the legs and calls that change, the row that is learnt, the fibres that are known to be down,
//! and the messages that are sent.

ghost use Rattle.std.specs.Prelude.{◌≡◌, [], ◌∷◌, IfOk, OnOk, Some};
ghost use Rattle.mesh_rules.specs.declared.changes.CallChange.TheVariants as calls;
ghost use Rattle.mesh_rules.specs.Changes.{changes_calls, followed_by, learns, nothing, puts, removes, sends, to_node};

use ason_base::{CallNo, CallRec, Fibres, Leg, Lsp, Msg, NodeId, Out, OutOfMemory, Outs, TeRow};
use mesh_rules::{CallChange, LegChange, NextNumbers};
use std::alloc::Global;
use std::marker::Model;
use std::mem::replace;

/// What a change is made of.
#[derive(Drop)]
pub struct ChangeParts {
    pub legs: Vec<LegChange>,
    pub calls: Vec<CallChange>,
    pub numbers: Option<NextNumbers>,
    pub down: Option<Fibres>,
    pub row: Option<TeRow>,
    pub sent: Outs,
}

impl Model for ChangeParts {
    ghost use Rattle.std.specs.Option.{option_to_list};
    ghost use Rattle.mesh_rules.specs.Changes.{Answer};

    ghost Value = { Answer };

    ghost view = { λ c. record {
      legs = c.legs.items;
      calls = c.calls.items;
      numbers = c.numbers;
      down = c.down;
      rows = option_to_list c.row;
      sent = c.sent;
    } };
}

/// What a rule changes and sends, or want of memory.
pub type Changed = Result<Change, OutOfMemory>;

/// What a rule changes at its node, and what it sends, in order. All else stays.
pub struct Change {
    alloc: Global,
    parts: ChangeParts,
}

impl Model for Change {
    ghost use Rattle.mesh_rules.specs.Changes.{Answer};

    ghost Value = { Answer };

    ghost view = { λ c. c.parts };
}

impl Change {
    /// Nothing changes, and nothing is sent.
    pub fn nothing(alloc: Global) -> Change
        ensures { result ≡ nothing }
    {
        let parts = ChangeParts {
            legs: Vec::new(alloc),
            calls: Vec::new(alloc),
            numbers: None,
            down: None,
            row: None,
            sent: Outs::new(alloc),
        };
        Change { alloc, parts }
    }

    /// The row is learnt, and nothing is sent.
    pub fn learns(alloc: Global, row: TeRow) -> Change
        ensures { result ≡ learns row }
    {
        let mut change = Change::nothing(alloc);
        change.parts.row = Some(row);
        change
    }

    /// One message is sent.
    pub fn sends(alloc: Global, to: NodeId, msg: Msg) -> Result<Change, OutOfMemory>
        ensures { IfOk result (λ c. c ≡ sends (to_node to msg ∷ [])) }
    {
        let mut change = Change::nothing(alloc);
        change.send(to, msg)?;
        Ok(change)
    }

    /// The leg is put in its place, and one message is sent.
    pub fn puts(alloc: Global, leg: Leg, to: NodeId, msg: Msg) -> Result<Change, OutOfMemory>
        ensures { IfOk result (λ c. c ≡ puts leg (to_node to msg ∷ [])) }
    {
        let mut change = Change::sends(alloc, to, msg)?;
        change.put(leg)?;
        Ok(change)
    }

    /// The leg of this LSP goes, and one message is sent.
    pub fn removes(alloc: Global, lsp: Lsp, to: NodeId, msg: Msg) -> Result<Change, OutOfMemory>
        ensures { IfOk result (λ c. c ≡ removes lsp (to_node to msg ∷ [])) }
    {
        let mut change = Change::sends(alloc, to, msg)?;
        change.remove(lsp)?;
        Ok(change)
    }

    /// Then a message is sent.
    pub fn send(&mut self, to: NodeId, msg: Msg) -> Result<(), OutOfMemory>
        ensures { OnOk result (self.new ≡ followed_by self.old (sends (to_node to msg ∷ []))) }
    {
        self.parts.sent.push(Out { to, msg })
    }

    /// Then the leg is put in its place.
    pub fn put(&mut self, leg: Leg) -> Result<(), OutOfMemory>
        ensures { OnOk result (self.new ≡ followed_by self.old (puts leg [])) }
    {
        self.parts.legs.push(LegChange::Put(leg))?;
        Ok(())
    }

    /// Then the leg of this LSP goes.
    pub fn remove(&mut self, lsp: Lsp) -> Result<(), OutOfMemory>
        ensures { OnOk result (self.new ≡ followed_by self.old (removes lsp [])) }
    {
        self.parts.legs.push(LegChange::Goes(lsp))?;
        Ok(())
    }

    /// Then the call is put in its place.
    pub fn put_call(&mut self, call: CallRec) -> Result<(), OutOfMemory>
        ensures { OnOk result
            (self.new ≡ followed_by self.old (changes_calls (calls.Put call ∷ []))) }
    {
        self.parts.calls.push(CallChange::Put(call))?;
        Ok(())
    }

    /// Then the call of this number goes.
    pub fn remove_call(&mut self, number: CallNo) -> Result<(), OutOfMemory>
        ensures { OnOk result
            (self.new ≡ followed_by self.old (changes_calls (calls.Goes number ∷ []))) }
    {
        self.parts.calls.push(CallChange::Goes(number))?;
        Ok(())
    }

    /// Then the tunnel and LSP numbers that are given out next are these.
    pub fn use_numbers(&mut self, numbers: NextNumbers)
        ensures { self.new ≡ record self.old { numbers = Some numbers } }
    {
        self.parts.numbers = Some(numbers);
    }

    /// Then just these fibres are known to be down.
    pub fn know_down(&mut self, fibres: Fibres)
        ensures { self.new ≡ record self.old { down = Some fibres } }
    {
        self.parts.down = Some(fibres);
    }

    /// Takes out the messages that are sent; all else stays.
    pub fn take_sent(&mut self) -> Outs
        ensures sent { result ≡ self.old.sent }
        ensures rest { self.new ≡ record self.old { sent = [] } }
    {
        replace(&mut self.parts.sent, Outs::new(self.alloc))
    }

    pub fn into_parts(self) -> ChangeParts
        ensures { result ≡ self }
    {
        let Change { alloc: _, parts } = self;
        parts
    }
}

impl Drop for Change {
    fn drop(self) {
        let Change { alloc: _, parts: _ } = self;
    }
}

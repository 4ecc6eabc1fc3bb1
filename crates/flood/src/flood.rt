//! What a node knows of links, and what it still owes its neighbours.

ghost use Rattle.std.specs.Prelude.{◌≡◌, ℕ, ◌<◌, length, Some, IfOk, OnErr, OnOk, IsTrue, false};
ghost use Rattle.ason_base.specs.declared.limits.TheConstants.{MOST_LINKS};
ghost use Rattle.flood.specs.State.{IsCounted, IsStart, declared_row, has_room, is_end, is_known, is_new, learnt_of, pending_count, flood_received, sends_after, sent_at_tick, ticked_flood, with_row};

use crate::known::KnownRows;
use crate::messages::FloodMsg;
use crate::neighbours::{
    FloodNeighbour, age_neighbours, new_all, pending, push_first_sendings, queue_all, rising,
    sent_at_tick, take_ack, unqueue_first,
};
use crate::sends::{FloodOut, FloodSends};
use ason_base::{Copied, LinkId, NodeId, OutOfMemory, TeRow, copied};
use std::alloc::Global;
use std::marker::Model;

/// The known rows of a node, and the rows that each neighbour hasn't acknowledged.
pub struct Flood {
    me: NodeId,
    known: KnownRows,
    neighbours: Vec<FloodNeighbour>,
}

impl Model for Flood {
    ghost use Rattle.std.specs.Prelude.{length};
    ghost use Rattle.flood.specs.State.{FloodState, IsCounted};

    ghost Value = { FloodState };

    ghost view = { λ f. record { me = f.me; rows = f.known; neighbours = f.neighbours.items } };

    ghost invariant = { λ f. IsCounted (length f.known) f.neighbours.items };
}

impl Flood {
    /// Law: at most 256 rows are known, and no more are due to a neighbour than became due to it.
    pub fn counts(&self)
        ensures { IsCounted (length self.now.rows) self.now.neighbours }
    {
        let _known = &self.known;
    }

    /// A node that knows nothing, with these neighbours.
    pub fn new(alloc: Global, me: NodeId, neighbours: &[NodeId]) -> Result<Flood, OutOfMemory>
        ensures { IfOk result (λ f. IsStart me neighbours.now f) }
    {
        let ids = rising(alloc, neighbours)?;
        let neighbours = new_all(alloc, &ids)?;
        Ok(Flood {
            me,
            known: KnownRows::new(alloc),
            neighbours,
        })
    }

    /// Makes a row of this node's own links known, and due to every neighbour. It goes out first in the next tick.
    pub fn declare(&mut self, alloc: Global, row: TeRow) -> Result<(), OutOfMemory>
        requires own { IsTrue (is_end self.old.me row) }
        requires unknown { is_known self.old.rows row.link ≡ false }
        requires room { IsTrue (has_room self.old.rows row) }
        ensures ok { OnOk result (self.new ≡ declared_row self.old row) }
        ensures err { OnErr result (self.new ≡ self.old) }
    {
        self.add(alloc, None, self.me, None, row)
    }

    /// Makes a row known, and due to each neighbour but the one that it came from.
    fn add(
        &mut self,
        alloc: Global,
        from: Option<NodeId>,
        origin: NodeId,
        age: Option<u8>,
        row: TeRow,
    ) -> Result<(), OutOfMemory>
        requires { length self.old.rows < MOST_LINKS }
        ensures ok { OnOk result (self.new ≡ with_row self.old from origin age row) }
        ensures err { OnErr result (self.new ≡ self.old) }
    {
        queue_all(alloc, &mut self.neighbours, from, origin, age, &row)?;
        match self.known.add(row) {
            Ok(()) => Ok(()),
            Err(error) => {
                let count = self.neighbours.len();
                unqueue_first(&mut self.neighbours, count, from);
                Err(error)
            }
        }
    }

    /// What a flood message of a neighbour comes to. A row is acknowledged; a new one becomes known and goes at once to the
    /// other neighbours. It is not new where its link is known or this node is one of its ends, or where the rows would be
    /// more than 256 or have more than 64 different ends.
    pub fn answer(&self, alloc: Global, from: NodeId, m: &FloodMsg) -> Result<FloodOut, OutOfMemory>
        ensures learnt { IfOk result (λ out. out.learnt ≡ learnt_of self.now m.now) }
        ensures sends { IfOk result (λ out. out.sends ≡ sends_after self.now from m.now) }
    {
        match m {
            FloodMsg::Ack { .. } => Ok(FloodOut {
                learnt: None,
                sends: FloodSends::new(alloc),
            }),
            FloodMsg::Row {
                number,
                origin,
                row,
            } => self.answer_row(alloc, from, *number, *origin, row),
        }
    }

    /// Takes the message: a row that is new becomes known and due to the other neighbours, and what is acknowledged is due
    /// no more.
    pub fn take(&mut self, alloc: Global, from: NodeId, m: &FloodMsg) -> Result<(), OutOfMemory>
        ensures ok { OnOk result (self.new ≡ flood_received self.old from m.now) }
        ensures err { OnErr result (self.new ≡ self.old) }
    {
        match m {
            FloodMsg::Ack { number } => {
                self.take_ack(from, *number);
                Ok(())
            }
            FloodMsg::Row { origin, row, .. } => self.take_row(alloc, from, *origin, row),
        }
    }

    /// Takes the message, and tells what it comes to.
    pub fn receive(
        &mut self,
        alloc: Global,
        from: NodeId,
        m: &FloodMsg,
    ) -> Result<FloodOut, OutOfMemory>
        ensures learnt { IfOk result (λ out. out.learnt ≡ learnt_of self.old m.now) }
        ensures sends { IfOk result (λ out. out.sends ≡ sends_after self.old from m.now) }
        ensures ok { OnOk result (self.new ≡ flood_received self.old from m.now) }
        ensures err { OnErr result (self.new ≡ self.old) }
    {
        let out = self.answer(alloc, from, m)?;
        self.take(alloc, from, m)?;
        Ok(out)
    }

    /// Whether a row that a neighbour gave becomes known.
    pub fn is_new(&self, row: &TeRow) -> bool
        ensures { result ≡ is_new self.now row.now }
    {
        !self.known.has_link(row.link) && !is_end(self.me, row) && self.known.has_room(row)
    }

    /// What a row of a neighbour comes to.
    fn answer_row(
        &self,
        alloc: Global,
        from: NodeId,
        number: u32,
        origin: NodeId,
        row: &TeRow,
    ) -> Result<FloodOut, OutOfMemory>
        ensures learnt { IfOk result
            (λ out. out.learnt ≡ learnt_of self.now (FloodMsg.Row number origin row.now)) }
        ensures sends { IfOk result
            (λ out. out.sends ≡ sends_after self.now from (FloodMsg.Row number origin row.now)) }
    {
        let mut sends = FloodSends::new(alloc);
        sends.push((from, FloodMsg::Ack { number }))?;
        if !self.is_new(row) {
            return Ok(FloodOut {
                learnt: None,
                sends,
            });
        }
        push_first_sendings(alloc, &mut sends, &self.neighbours, from, origin, row)?;
        let row = row.copy(alloc)?;
        Ok(FloodOut {
            learnt: Some(row),
            sends,
        })
    }

    /// Takes a row of a neighbour.
    fn take_row(
        &mut self,
        alloc: Global,
        from: NodeId,
        origin: NodeId,
        row: &TeRow,
    ) -> Result<(), OutOfMemory>
        ensures ok { (number : ℕ) → OnOk result
            (self.new ≡ flood_received self.old from (FloodMsg.Row number origin row.now)) }
        ensures err { OnErr result (self.new ≡ self.old) }
    {
        if !self.is_new(row) {
            return Ok(());
        }
        let row = row.copy(alloc)?;
        self.add(alloc, Some(from), origin, Some(0), row)
    }

    /// Takes off what a neighbour acknowledged.
    fn take_ack(&mut self, from: NodeId, number: u32)
        ensures { self.new ≡ flood_received self.old from (FloodMsg.Ack number) }
    {
        take_ack(&mut self.neighbours, from, number);
    }

    /// What goes out in the next tick, by neighbour, then number: rows that were not sent yet, and those that are due again.
    pub fn due(&self, alloc: Global) -> Result<FloodSends, OutOfMemory>
        ensures { IfOk result (λ sends. sends ≡ sent_at_tick self.now) }
    {
        sent_at_tick(alloc, &self.neighbours)
    }

    /// Makes all that is due a tick older.
    pub fn age(&mut self)
        ensures { self.new ≡ ticked_flood self.old }
    {
        age_neighbours(&mut self.neighbours);
    }

    /// Makes a tick, and tells what goes out in it.
    pub fn tick(&mut self, alloc: Global) -> Result<FloodSends, OutOfMemory>
        ensures sends { IfOk result (λ sends. sends ≡ sent_at_tick self.old) }
        ensures ok { OnOk result (self.new ≡ ticked_flood self.old) }
        ensures err { OnErr result (self.new ≡ self.old) }
    {
        let sends = self.due(alloc)?;
        self.age();
        Ok(sends)
    }

    /// The known rows, in order of learning.
    pub fn rows(&self) -> &[TeRow]
        ensures { result.now ≡ self.now.rows }
    {
        self.known.items()
    }

    /// Whether a row of this link is known.
    pub fn known(&self, link: LinkId) -> bool
        ensures { result ≡ is_known self.now.rows link }
    {
        self.known.has_link(link)
    }

    /// The neighbours, with the rows that are due to each.
    pub fn neighbours(&self) -> &[FloodNeighbour]
        ensures { result.now ≡ self.now.neighbours }
    {
        &self.neighbours
    }

    /// How many rows are due, to each neighbour that hasn't acknowledged them.
    pub fn pending(&self) -> usize
        ensures { result ≡ pending_count self.now }
    {
        pending(&self.neighbours)
    }
}

impl Copied for Flood {
    fn copy(&self, alloc: Global) -> Result<Flood, OutOfMemory> {
        copied!(self, alloc; Flood { me; known; neighbours })
    }
}

impl Drop for Flood {
    fn drop(self) {
        let Flood {
            me: _,
            known: _,
            neighbours: _,
        } = self;
    }
}

/// Whether the node is an end of the row.
fn is_end(node: NodeId, row: &TeRow) -> bool
    ensures { result ≡ is_end node row.now }
{
    row.low.0 == node.0 || row.high.0 == node.0
}

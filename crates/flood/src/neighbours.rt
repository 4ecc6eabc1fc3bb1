//! What a node keeps of each neighbour.

ghost use Rattle.std.specs.{Prelude.{◌≡◌, ◌==◌, ℕ, ◌↔◌, Contains, ◌<◌, ◌≤◌, ◌+◌, ◌^◌, ◌++◌, IfOk, OnErr, OnOk, map, take, drop, All, length, Some, slice_index, sum_by}, List.flat_map, List.Sorted.IsStrictlyIncreasing};
ghost use Rattle.flood.specs.State.{acked_by, due_to, first_sending, first_sendings, fresh_neighbour, is_from, older_neighbour, queued, queued_unless, rows_sent_to, unqueued, unqueued_unless};

use crate::due::{Due, age_all, copies, take_off};
use crate::messages::FloodMsg;
use crate::sends::FloodSends;
use ason_base::{Copied, NodeId, OutOfMemory, TeRow};
use std::alloc::Global;
use std::collections::VecDeque;
use std::marker::Model;

/// A neighbour, the last number that a row due to it got, and the rows that it hasn't acknowledged, in order of number.
pub struct FloodNeighbour {
    id: NodeId,
    sent: u32,
    due: VecDeque<Due>,
}

impl Model for FloodNeighbour {
    ghost use Rattle.flood.specs.State.{IsDueInOrder, NeighbourState};

    ghost Value = { NeighbourState };

    ghost view = { λ n. record { id = n.id; sent = n.sent; due = n.due.items } };

    ghost invariant = { λ n. IsDueInOrder n.sent n.due.items };
}

impl FloodNeighbour {
    /// A neighbour to which no row is due.
    pub fn new(alloc: Global, id: NodeId) -> FloodNeighbour
        ensures { result ≡ fresh_neighbour id }
    {
        FloodNeighbour {
            id,
            sent: 0,
            due: VecDeque::new(alloc),
        }
    }

    /// Which node it is.
    pub fn id(&self) -> NodeId
        ensures { result ≡ self.now.id }
    {
        self.id
    }

    /// The number of the next row that becomes due to it.
    pub fn next_number(&self) -> u32
        requires { self.now.sent + 1 < 2 ^ 32 }
        ensures { result ≡ self.now.sent + 1 }
    {
        self.sent + 1
    }

    /// The rows that it hasn't acknowledged, in order of number: the first of them, and the others.
    pub fn due(&self) -> (&[Due], &[Due])
        ensures { result.0.now ++ result.1.now ≡ self.now.due }
    {
        self.due.as_slices()
    }

    /// Whether it has acknowledged every row.
    pub fn has_all(&self) -> bool
        ensures { result ≡ (length self.now.due == 0) }
    {
        self.due.is_empty()
    }

    /// Makes the row due to it with the next number.
    fn queue(
        &mut self,
        alloc: Global,
        origin: NodeId,
        age: Option<u8>,
        row: &TeRow,
    ) -> Result<(), OutOfMemory>
        requires { self.old.sent + 1 < 2 ^ 32 }
        ensures ok { OnOk result (self.new ≡ queued origin age row.now self.old) }
        ensures err { OnErr result (self.new ≡ self.old) }
    {
        let number = self.next_number();
        let row = row.copy(alloc)?;
        self.due.push_back(Due {
            number,
            age,
            origin,
            row,
        })?;
        self.sent = number;
        Ok(())
    }

    /// Makes the row due to it, if it isn't the one that the row came from.
    fn queue_unless(
        &mut self,
        alloc: Global,
        from: Option<NodeId>,
        origin: NodeId,
        age: Option<u8>,
        row: &TeRow,
    ) -> Result<(), OutOfMemory>
        requires { self.old.sent + 1 < 2 ^ 32 }
        ensures ok { OnOk result (self.new ≡ queued_unless from origin age row.now self.old) }
        ensures err { OnErr result (self.new ≡ self.old) }
    {
        if self.is_from(from) {
            return Ok(());
        }
        self.queue(alloc, origin, age, row)
    }

    /// Takes back the row that became due to it last, and its number.
    fn unqueue(&mut self)
        ensures { self.new ≡ unqueued self.old }
    {
        let _ = self.due.pop_back();
        self.sent = self.sent.saturating_sub(1);
    }

    /// Takes it back, if this isn't the neighbour that the row came from.
    fn unqueue_unless(&mut self, from: Option<NodeId>)
        ensures { self.new ≡ unqueued_unless from self.old }
    {
        if !self.is_from(from) {
            self.unqueue();
        }
    }

    fn is_from(&self, from: Option<NodeId>) -> bool
        ensures { result ≡ is_from from self.now }
    {
        match from {
            None => false,
            Some(node) => self.id.0 == node.0,
        }
    }

    /// Takes off the row of this number, if the acknowledgement came from this neighbour.
    fn take_ack(&mut self, from: NodeId, number: u32)
        ensures { self.new ≡ acked_by from number self.old }
    {
        if self.id.0 == from.0 {
            take_off(&mut self.due, number);
        }
    }

    /// The row as it goes out first to this neighbour.
    fn first_sending(
        &self,
        alloc: Global,
        origin: NodeId,
        row: &TeRow,
    ) -> Result<(NodeId, FloodMsg), OutOfMemory>
        requires { self.now.sent + 1 < 2 ^ 32 }
        ensures { IfOk result (λ s. s ≡ first_sending origin row.now self.now) }
    {
        let row = row.copy(alloc)?;
        Ok((
            self.id,
            FloodMsg::Row {
                number: self.next_number(),
                origin,
                row,
            },
        ))
    }

    /// Adds what goes out to this neighbour in a tick.
    fn push_sent(&self, alloc: Global, sends: &mut FloodSends) -> Result<(), OutOfMemory>
        ensures { OnOk result (sends.new ≡ sends.old ++ rows_sent_to self.now) }
    {
        if self.has_all() {
            return Ok(());
        }
        let (first, others) = self.due();
        push_due(alloc, sends, self.id, first)?;
        push_due(alloc, sends, self.id, others)
    }

    fn age(&mut self)
        ensures { self.new ≡ older_neighbour self.old }
    {
        if !self.has_all() {
            age_all(self.due.make_contiguous());
        }
    }
}

impl Copied for FloodNeighbour {
    fn copy(&self, alloc: Global) -> Result<FloodNeighbour, OutOfMemory> {
        let due = copies(alloc, &self.due)?;
        Ok(FloodNeighbour {
            id: self.id,
            sent: self.sent,
            due,
        })
    }
}

impl Drop for FloodNeighbour {
    fn drop(self) {
        let FloodNeighbour {
            id: _,
            sent: _,
            due: _,
        } = self;
    }
}

/// Adds what of these rows goes out to the neighbour in a tick.
fn push_due(
    alloc: Global,
    sends: &mut FloodSends,
    to: NodeId,
    due: &[Due],
) -> Result<(), OutOfMemory>
    ensures { OnOk result (sends.new ≡ sends.old ++ due_to to due.now) }
{
    for d in due {
        if d.goes_next() {
            let row = d.row.copy(alloc)?;
            sends.push((
                to,
                FloodMsg::Row {
                    number: d.number,
                    origin: d.origin,
                    row,
                },
            ))?;
        }
    }
    Ok(())
}

/// Makes the row due to each neighbour but the one that it came from. Where memory runs out, nothing has changed.
pub(crate) fn queue_all(
    alloc: Global,
    neighbours: &mut [FloodNeighbour],
    from: Option<NodeId>,
    origin: NodeId,
    age: Option<u8>,
    row: &TeRow,
) -> Result<(), OutOfMemory>
    requires { All (λ n. n.sent + 1 < 2 ^ 32) neighbours.old }
    ensures ok { OnOk result
        (neighbours.new ≡ map (queued_unless from origin age row.now) neighbours.old) }
    ensures err { OnErr result (neighbours.new ≡ neighbours.old) }
{
    for i in 0..neighbours.len() {
        if let Err(error) = neighbours[i].queue_unless(alloc, from, origin, age, row) {
            unqueue_first(neighbours, i, from);
            return Err(error);
        }
    }
    Ok(())
}

/// Takes back the row that became due last to the first ones of these, but to the one that it came from.
pub(crate) fn unqueue_first(neighbours: &mut [FloodNeighbour], count: usize, from: Option<NodeId>)
    requires { count ≤ length neighbours.old }
    ensures { neighbours.new ≡ map (unqueued_unless from) (take count neighbours.old) ++
        drop count neighbours.old }
{
    for i in 0..count {
        neighbours[i].unqueue_unless(from);
    }
}

/// Takes off the row that a neighbour acknowledged.
pub(crate) fn take_ack(neighbours: &mut [FloodNeighbour], from: NodeId, number: u32)
    ensures { neighbours.new ≡ map (acked_by from number) neighbours.old }
{
    for n in neighbours.iter_mut() {
        n.take_ack(from, number);
    }
}

/// Makes all that is due a tick older.
pub(crate) fn age_neighbours(neighbours: &mut [FloodNeighbour])
    ensures { neighbours.new ≡ map older_neighbour neighbours.old }
{
    for n in neighbours.iter_mut() {
        n.age();
    }
}

/// The row to each neighbour but the one that it came from, with the number that it gets there.
pub(crate) fn push_first_sendings(
    alloc: Global,
    sends: &mut FloodSends,
    neighbours: &[FloodNeighbour],
    from: NodeId,
    origin: NodeId,
    row: &TeRow,
) -> Result<(), OutOfMemory>
    requires { All (λ n. n.sent + 1 < 2 ^ 32) neighbours.now }
    ensures { OnOk result
        (sends.new ≡ sends.old ++ first_sendings from origin row.now neighbours.now) }
{
    for n in neighbours {
        if !n.is_from(Some(from)) {
            sends.push(n.first_sending(alloc, origin, row)?)?;
        }
    }
    Ok(())
}

/// What goes out in the tick, by neighbour, then number.
pub(crate) fn sent_at_tick(
    alloc: Global,
    neighbours: &[FloodNeighbour],
) -> Result<FloodSends, OutOfMemory>
    ensures { IfOk result (λ sends. sends ≡ flat_map rows_sent_to neighbours.now) }
{
    let mut sends = FloodSends::new(alloc);
    for n in neighbours {
        n.push_sent(alloc, &mut sends)?;
    }
    Ok(sends)
}

/// How many rows are due to these neighbours.
pub(crate) fn pending(neighbours: &[FloodNeighbour]) -> usize
    requires { sum_by (λ n. length n.due) neighbours.now < 2 ^ 64 }
    ensures { result ≡ sum_by (λ n. length n.due) neighbours.now }
{
    neighbours.iter().map(|n| n.due.len()).sum()
}

fn numbers_of(alloc: Global, ids: &[NodeId]) -> Result<Vec<u32>, OutOfMemory>
    ensures { IfOk result (λ ns. ns.items ≡ map (λ id. id.0) ids.now) }
{
    let numbers = ids.iter().map(|id| id.0).collect(alloc)?;
    Ok(numbers)
}

/// The numbers of these nodes, each once, rising.
pub(crate) fn rising(alloc: Global, ids: &[NodeId]) -> Result<Vec<u32>, OutOfMemory>
    ensures rising { IfOk result (λ ns. IsStrictlyIncreasing ns.items) }
    ensures same { IfOk result
        (λ ns. (n : ℕ) → Contains ns.items n ↔ Contains (map (λ id. id.0) ids.now) n) }
{
    let mut numbers = numbers_of(alloc, ids)?;
    numbers.sort_unstable();
    numbers.dedup();
    Ok(numbers)
}

/// A neighbour for each number, to which no row is due.
pub(crate) fn new_all(alloc: Global, numbers: &[u32]) -> Result<Vec<FloodNeighbour>, OutOfMemory>
    ensures all { IfOk result (λ ns. ns.items ≡ map (λ n. fresh_neighbour (record { 0 = n })) numbers.now) }
    ensures small { (k : ℕ) → slice_index numbers.now k < 2 ^ 32 }
{
    let mut all = Vec::with_capacity(alloc, numbers.len())?;
    for n in numbers {
        all.push(FloodNeighbour::new(alloc, NodeId(*n)))?;
    }
    Ok(all)
}

//! Messages that wait for their acknowledgement.

ghost use Rattle.std.specs.{Prelude.{◌≡◌, ◌≤◌, ◌==◌, IfOk, filter, map, not}, VecDeque.{deque_capacity, deque_len}};
ghost use Rattle.hop_reliable.specs.{Ages.{is_due, older_age}, Hop.{again, numbered, older, still_unacked}, Order.UnackedNumbersRise};

use crate::ages::{is_due, older_age};
use crate::heard::EPOCH;
use ason_base::{Copied, Ids, Msg, MsgId, OutOfMemory, Packet, copied};
use std::alloc::Global;
use std::collections::VecDeque;

/// A message that was sent and not acknowledged. `age` counts ticks since its first sending, where 68 counts as 8.
pub struct Unacked {
    pub number: u32,
    pub age: u8,
    pub msg: Msg,
}

impl Copied for Unacked {
    fn copy(&self, alloc: Global) -> Result<Unacked, OutOfMemory> {
        copied!(self, alloc; Unacked { number, age; msg })
    }
}

impl Drop for Unacked {
    fn drop(self) {
        let Unacked {
            number: _,
            age: _,
            msg: _,
        } = self;
    }
}

impl Unacked {
    /// Its number, in the epoch of every message.
    pub fn id(&self) -> MsgId
        ensures { result ≡ record { epoch = 1; number = self.now.number } }
    {
        in_epoch(self.number)
    }

    /// Whether the next tick sends it again.
    pub fn goes_next(&self) -> bool
        ensures { result ≡ is_due (older_age self.now.age) }
    {
        is_due(older_age(self.age))
    }
}

/// The number of a message, in the epoch of every message.
pub(crate) fn in_epoch(number: u32) -> MsgId
    ensures { result ≡ record { epoch = 1; number = number } }
{
    MsgId {
        epoch: EPOCH,
        number,
    }
}

/// The message with its number, and no acknowledgement.
pub(crate) fn numbered(alloc: Global, number: u32, msg: Msg) -> Packet
    ensures { result ≡ numbered number msg }
{
    Packet {
        id: Some(in_epoch(number)),
        acks: Ids::new(alloc),
        body: Some(msg),
    }
}

/// The same messages again.
pub(crate) fn copies(
    alloc: Global,
    all: &VecDeque<Unacked>,
) -> Result<VecDeque<Unacked>, OutOfMemory>
    ensures { IfOk result (λ copies. copies.items ≡ all.now.items) }
{
    let mut copies = VecDeque::with_capacity(alloc, all.len())?;
    for w in all.iter() {
        copies.push_back(w.copy(alloc)?)?;
    }
    Ok(copies)
}

/// What goes again once each message is a tick older.
pub(crate) fn due_after_tick(
    alloc: Global,
    unacked: &VecDeque<Unacked>,
) -> Result<Vec<Packet>, OutOfMemory>
    ensures { IfOk result (λ ps. ps.items ≡ again (map older unacked.now.items)) }
{
    let mut due = Vec::new(alloc);
    for w in unacked.iter() {
        if w.goes_next() {
            due.push(numbered(alloc, w.number, w.msg.copy(alloc)?))?;
        }
    }
    Ok(due)
}

/// Makes each message a tick older, in its place.
pub(crate) fn age_all(unacked: &mut VecDeque<Unacked>)
    ensures aged { unacked.new.items ≡ map older unacked.old.items }
    ensures len { deque_len unacked.new ≡ deque_len unacked.old }
    ensures capacity { deque_capacity unacked.new ≡ deque_capacity unacked.old }
{
    for i in 0..unacked.len() {
        let w = &mut unacked[i];
        w.age = older_age(w.age);
    }
}

/// Takes off each message that is acknowledged in epoch 1.
pub(crate) fn take_off(unacked: &mut VecDeque<Unacked>, acks: &[MsgId])
    requires { UnackedNumbersRise unacked.old.items }
    ensures left { unacked.new.items ≡ still_unacked acks.now unacked.old.items }
    ensures less { deque_len unacked.new ≤ deque_len unacked.old }
    ensures capacity { deque_capacity unacked.new ≡ deque_capacity unacked.old }
{
    if unacked.is_empty() {
        return;
    }
    for ack in acks {
        if ack.epoch == EPOCH {
            take_off_number(unacked, ack.number);
        }
    }
}

// Takes off the message of this number. Most often it is the first one, which moves no other, or was taken off before. The
// numbers rise, so any other is looked up.
fn take_off_number(unacked: &mut VecDeque<Unacked>, number: u32)
    requires { UnackedNumbersRise unacked.old.items }
    ensures left { unacked.new.items ≡
        filter (λ w. not (w.number == number)) unacked.old.items }
    ensures less { deque_len unacked.new ≤ deque_len unacked.old }
    ensures capacity { deque_capacity unacked.new ≡ deque_capacity unacked.old }
{
    if unacked.is_empty() {
        return;
    }
    let first = unacked[0].number;
    if number < first {
        return;
    }
    if number == first {
        let _ = unacked.pop_front();
        return;
    }
    if let Ok(place) = unacked.binary_search_by_key(&number, |w| w.number) {
        let _ = unacked.remove(place);
    }
}

//! One end of a hop.

ghost use Rattle.std.specs.{Prelude.{◌≡◌, ◌+◌, ◌-◌, ◌<◌, ◌≤◌, ◌^◌, IfOk, OnErr, OnOk, length}, VecDeque.Iter.deque_iter_rest};
ghost use Rattle.hop_reliable.specs.Hop.{all_sent, fresh_hop, heard_as, last_number, numbered, received, resent, resting, taken, ticked, with_next};

use crate::heard::{Heard, heard_as};
use crate::unacked::{Unacked, age_all, copies, due_after_tick, in_epoch, numbered, take_off};
use ason_base::{Copied, Msg, MsgId, OutOfMemory, Packet};
use std::alloc::Global;
use std::collections::VecDeque;
use std::collections::vec_deque::Iter;
use std::marker::Model;

/// One end of a hop to a neighbour: the last number sent, the last handed up, and the messages that the neighbour
/// hasn't acknowledged, in order of number, with their ages in ticks. Messages can be prepared before they are sent, so that
/// nothing is refused any more when they are.
pub struct Hop {
    sent: u32,
    handed_up: u32,
    unacked: VecDeque<Unacked>,
    // Numbered from `sent` + 1. There is room for them behind `unacked`.
    prepared: VecDeque<Unacked>,
}

impl Model for Hop {
    ghost use Rattle.std.specs.VecDeque.{deque_capacity, deque_len};
    ghost use Rattle.hop_reliable.specs.Hop.{PreparedHop};
    ghost use Rattle.hop_reliable.specs.Order.{AreNumberedAfter, AreSentInOrder};
    ghost use Rattle.hop_reliable.specs.Room.{HasRoom};

    ghost Value = { PreparedHop };

    ghost view = { λ h. record {
      state = record { sent = h.sent; handed_up = h.handed_up; unacked = h.unacked.items };
      prepared = h.prepared.items;
    } };

    ghost invariant = { λ h. HasRoom h.sent (deque_len h.unacked) (deque_len h.prepared) (deque_capacity h.unacked) ×
        AreSentInOrder h.sent h.unacked.items × AreNumberedAfter h.sent h.prepared.items };
}

impl Hop {
    /// A hop over which nothing was sent or handed up.
    pub fn new(alloc: Global) -> Hop
        ensures { result ≡ resting fresh_hop }
    {
        Hop {
            sent: 0,
            handed_up: 0,
            unacked: VecDeque::new(alloc),
            prepared: VecDeque::new(alloc),
        }
    }

    /// Gives the message the next number, and keeps it until it is acknowledged. The packet is the message as it goes out
    /// first (RFC 2961, section 4.2). What was prepared before goes out before it.
    pub fn send(&mut self, alloc: Global, msg: Msg) -> Result<Packet, OutOfMemory>
        requires { last_number self.old < 2 ^ 32 - 1 }
        ensures packet { IfOk result (λ p. p ≡ numbered (last_number self.old + 1) msg) }
        ensures ok { OnOk result (self.new ≡ resting (all_sent (with_next self.old msg))) }
        ensures err { OnErr result (self.new ≡ self.old) }
    {
        let packet = self.prepare(alloc, msg)?;
        self.commit();
        Ok(packet)
    }

    /// Gives the message the next number, and makes room for it: it is sent by `commit`, which is never refused. The packet is
    /// the message as it goes out first.
    pub fn prepare(&mut self, alloc: Global, msg: Msg) -> Result<Packet, OutOfMemory>
        requires { last_number self.old < 2 ^ 32 - 1 }
        ensures packet { IfOk result (λ p. p ≡ numbered (last_number self.old + 1) msg) }
        ensures ok { OnOk result (self.new ≡ with_next self.old msg) }
        ensures err { OnErr result (self.new ≡ self.old) }
    {
        let kept = msg.copy(alloc)?;
        let packet = self.next_packet(alloc, msg);
        self.keep(kept)?;
        Ok(packet)
    }

    /// The number that the next message gets, with which it goes out first.
    pub fn next_id(&self) -> MsgId
        requires { last_number self.now < 2 ^ 32 - 1 }
        ensures { result ≡ record { epoch = 1; number = last_number self.now + 1 } }
    {
        in_epoch(self.next_number())
    }

    /// The message with the next number, as it goes out first. It changes nothing.
    pub fn next_packet(&self, alloc: Global, msg: Msg) -> Packet
        requires { last_number self.now < 2 ^ 32 - 1 }
        ensures { result ≡ numbered (last_number self.now + 1) msg }
    {
        numbered(alloc, self.next_number(), msg)
    }

    /// Gives the message the next number and makes room for it, as `prepare` does, where its packet isn't asked for.
    pub fn keep(&mut self, msg: Msg) -> Result<(), OutOfMemory>
        requires { last_number self.old < 2 ^ 32 - 1 }
        ensures ok { OnOk result (self.new ≡ with_next self.old msg) }
        ensures err { OnErr result (self.new ≡ self.old) }
    {
        let number = self.next_number();
        self.unacked.reserve(self.prepared.len() + 1)?;
        self.prepared.push_back(Unacked {
            number,
            age: 0,
            msg,
        })?;
        Ok(())
    }

    // The number that the next message gets.
    fn next_number(&self) -> u32
        requires { last_number self.now < 2 ^ 32 - 1 }
        ensures { result ≡ last_number self.now + 1 }
    {
        self.sent + self.prepared.len() as u32 + 1
    }

    /// Sends what is prepared.
    pub fn commit(&mut self)
        ensures { self.new ≡ resting (all_sent self.old) }
    {
        if self.prepared.is_empty() {
            return;
        }
        self.sent += self.prepared.len() as u32;
        match self.unacked.append(&mut self.prepared) {
            Ok(()) => {}
            Err(_) => unreachable!(),
        }
    }

    /// Forgets what is prepared.
    pub fn discard(&mut self)
        ensures { self.new ≡ resting self.old.state }
    {
        self.prepared.clear();
    }

    /// Takes off each message that the packet acknowledges in epoch 1, and tells what the packet is. At `Next` its message
    /// is handed up. `Heard::acked` tells what answers the packet.
    pub fn receive(&mut self, p: &Packet) -> Heard
        ensures heard { result ≡ heard_as self.old.state p.now }
        ensures state { self.new ≡ record {
          state = received self.old.state p.now;
          prepared =
              self.old.prepared;
        } }
    {
        let heard = self.hears(p);
        self.take(heard, p.acks.items());
        heard
    }

    /// What the packet is. It changes nothing.
    pub fn hears(&self, p: &Packet) -> Heard
        ensures heard { result ≡ heard_as self.now.state p.now }
        ensures next { result ≡ Heard.Next → self.now.state.handed_up + 1 < 2 ^ 32 }
    {
        heard_as(self.handed_up, p)
    }

    /// Takes a packet that is this, with these acknowledgements: `receive` in two parts.
    pub fn take(&mut self, heard: Heard, acks: &[MsgId])
        requires { heard ≡ Heard.Next → self.old.state.handed_up + 1 < 2 ^ 32 }
        ensures { self.new ≡ record {
          state = taken self.old.state heard acks.now;
          prepared =
              self.old.prepared;
        } }
    {
        take_off(&mut self.unacked, acks);
        if heard == Heard::Next {
            self.handed_up += 1;
        }
    }

    /// Makes each unacknowledged message a tick older. What comes to the age 1, 3, 7 or 67 goes again, in order of number.
    pub fn tick(&mut self, alloc: Global) -> Result<Vec<Packet>, OutOfMemory>
        ensures due { IfOk result (λ ps. ps.items ≡ resent self.old.state) }
        ensures ok { OnOk result
            (self.new ≡ record { state = ticked self.old.state; prepared = self.old.prepared }) }
        ensures err { OnErr result (self.new ≡ self.old) }
    {
        let due = self.due(alloc)?;
        self.age();
        Ok(due)
    }

    /// What the next tick sends again, in order of number. It changes nothing.
    pub fn due(&self, alloc: Global) -> Result<Vec<Packet>, OutOfMemory>
        ensures { IfOk result (λ ps. ps.items ≡ resent self.now.state) }
    {
        due_after_tick(alloc, &self.unacked)
    }

    /// Makes each unacknowledged message a tick older.
    pub fn age(&mut self)
        ensures { self.new ≡ record {
          state = ticked self.old.state;
          prepared =
              self.old.prepared;
        } }
    {
        age_all(&mut self.unacked);
    }

    /// The messages that aren't acknowledged, in order of number.
    pub fn waiting(&self) -> Iter<'_, Unacked>
        ensures { deque_iter_rest result ≡ self.now.state.unacked }
    {
        self.unacked.iter()
    }

    /// How many messages are unacknowledged: at most those that were sent.
    pub fn pending(&self) -> usize
        ensures count { result ≡ length self.now.state.unacked }
        ensures most { result ≤ self.now.state.sent }
        ensures small { result < 2 ^ 32 }
    {
        self.unacked.len()
    }

    /// The number of the last message that was sent, 0 before the first.
    pub fn sent(&self) -> u32
        ensures { result ≡ self.now.state.sent }
    {
        self.sent
    }
}

impl Copied for Hop {
    fn copy(&self, alloc: Global) -> Result<Hop, OutOfMemory> {
        let mut unacked = copies(alloc, &self.unacked)?;
        let prepared = copies(alloc, &self.prepared)?;
        unacked.reserve(prepared.len())?;
        Ok(Hop {
            sent: self.sent,
            handed_up: self.handed_up,
            unacked,
            prepared,
        })
    }
}

impl Drop for Hop {
    fn drop(self) {
        let Hop {
            sent: _,
            handed_up: _,
            unacked: _,
            prepared: _,
        } = self;
    }
}

//! The link to a neighbour: the ring into which a station sends, and the ring out of which it takes.

ghost use Rattle.std.specs.{Prelude.{◌≡◌, ◌+◌, ◌<◌, ◌≤◌, ◌++◌, ◌∷◌, [], ◌^◌, List, Some, None, IfOk, MatchOption, false, length, true}, List.AllByRecursion};
ghost use mathlib.Core.List.{IsPrefix};
ghost use Rattle.rtrb.specs.Ring.{received, known_items, known_free, sent, SameProducer, SameConsumer, IsPair, producer_capacity};
ghost use Rattle.station_rings.specs.{declared.parcel.Parcel.Parcel, Links.with_parcel, LinkStates.{AreEnds, AreFew, BearsSome, IsBearing, IsFetched, IsHead, IsLooked, IsNew, IsTaken, LinkState, SameEnds, gone_of, view_of}, Protocols.{AreInOrder, FollowsParcels}};

use crate::Parcel;
use crate::parcels::{Head, Parcels};
use crate::rules::Rising;
use ason_base::limits::MOST_FRAMES;
use ason_base::{Bytes, NodeId, OutOfMemory};
use rtrb::{Consumer, Producer, PushError, RingBuffer};
use std::alloc::Global;
use std::marker::Model;

type Out = Producer<Parcel, Global, Rising>;

type Into = Consumer<Parcel, Global, Rising>;

/// The channel to a neighbour, and the one from it.
pub struct Link {
    peer: NodeId,
    used: bool,
    sent: u64,
    standing: usize,
    out: Out,
    backlog: Parcels,
    into: Into,
    early: Parcels,
}

impl Model for Link {
    ghost use Rattle.station_rings.specs.LinkStates.{LinkFits, LinkState};

    ghost Value = { LinkState };

    ghost view = { λ l. record {
      peer = l.peer;
      used = l.used;
      sent = l.sent;
      standing = l.standing;
      out = l.out;
      backlog = l.backlog;
      into = l.into;
      early = l.early;
    } };

    ghost invariant = { λ l. LinkFits (record {
      peer = l.peer;
      used = l.used;
      sent = l.sent;
      standing = l.standing;
      out = l.out;
      backlog = l.backlog;
      into = l.into;
      early = l.early;
    }) };
}

// A ring of 256 parcels, as one of its ends and the other.
fn ring(alloc: Global) -> Result<(Out, Into), OutOfMemory>
    ensures pair { IfOk result (λ r. IsPair r.0 r.1) }
    ensures producer { IfOk result (λ r. (sent r.0 ≡ []) × (producer_capacity r.0 ≡ MOST_FRAMES)) }
    ensures consumer { IfOk result (λ r. (received r.1 ≡ []) × (known_items r.1 ≡ [])) }
{
    let ends = RingBuffer::with_protocol::<Global, Rising>(alloc, MOST_FRAMES)?;
    Ok(ends)
}

// Sends a parcel into the ring, or behind those that wait for room there.
fn put(out: &mut Out, backlog: &mut Parcels, parcel: Parcel)
    requires room { length backlog.old < MOST_FRAMES }
    requires follows { FollowsParcels (sent out.old ++ backlog.old) parcel }
    requires order { AreInOrder (sent out.old) backlog.old }
    ensures gone { sent out.new ++ backlog.new ≡ (sent out.old ++ backlog.old) ++ parcel ∷ [] }
    ensures order { AreInOrder (sent out.new) backlog.new }
    ensures ends { SameProducer out.old out.new }
    ensures longer { length backlog.new ≤ length backlog.old + 1 }
{
    if !backlog.is_empty() {
        backlog.push(parcel);
        return;
    }
    match out.push(parcel) {
        Ok(()) => {}
        Err(PushError::Full(parcel)) => backlog.push(parcel),
    }
}

// Takes a frame out of the ring where none came out before, and tells whether one came out now.
fn fetch(early: &mut Parcels, into: &mut Into) -> bool
    requires bears { AllByRecursion IsBearing early.old }
    ensures ends { SameConsumer into.old into.new }
    ensures known { IsPrefix (received into.old ++ known_items into.old)
        (received into.new ++ known_items into.new) }
    ensures more { (more : List Parcel) × (received into.new ≡ received into.old ++ more) ×
        (early.new ≡ early.old ++ more) }
    ensures bears { AllByRecursion IsBearing early.new }
    ensures few { length early.old ≤ MOST_FRAMES → length early.new ≤ MOST_FRAMES }
    ensures none { early.new ≡ [] → known_items into.new ≡ [] }
    ensures still_early { result ≡ false → early.new ≡ early.old }
    ensures still_came { result ≡ false → received into.new ≡ received into.old }
    ensures still_known { result ≡ false → known_items into.new ≡ known_items into.old }
{
    if !early.is_empty() {
        return false;
    }
    match into.pop() {
        Ok(parcel) => {
            early.push(parcel);
            true
        }
        Err(_) => false,
    }
}

// Takes out of the ring what is known to stand there.
fn take_in(into: &mut Into, early: &mut Parcels)
    requires few { length early.old + length (known_items into.old) ≤ MOST_FRAMES }
    requires bears { AllByRecursion IsBearing early.old }
    ensures bears { AllByRecursion IsBearing early.new }
    ensures ends { SameConsumer into.old into.new }
    ensures none { known_items into.new ≡ [] }
    ensures received { received into.new ≡ received into.old ++ known_items into.old }
    ensures early { early.new ≡ early.old ++ known_items into.old }
{
    while into.cached_slots() > 0 {
        let parcel = into.pop_known();
        early.push(parcel);
    }
}

// Sends what waits into the ring, where there is room for it.
fn refill(out: &mut Out, backlog: &mut Parcels)
    requires room { length backlog.old ≤ known_free out.old }
    requires order { AreInOrder (sent out.old) backlog.old }
    ensures ends { SameProducer out.old out.new }
    ensures none { backlog.new ≡ [] }
    ensures sent { sent out.new ≡ sent out.old ++ backlog.old }
{
    while let Some(parcel) = backlog.pop() {
        out.push_reserved(parcel);
    }
}

// A look at both ends of a ring: what stands there is known. Where parcels waited, what stood there came out of it, and
// they stand there. Most often none did.
fn hand_over(out: &mut Out, backlog: &mut Parcels, into: &mut Into, early: &mut Parcels)
    requires pair { IsPair out.old into.old }
    requires few { length early.old + length (sent out.old ++ backlog.old)
        ≤ MOST_FRAMES + length (received into.old) }
    requires wide { producer_capacity out.old ≡ MOST_FRAMES }
    requires most { length backlog.old ≤ MOST_FRAMES }
    requires order { AreInOrder (sent out.old) backlog.old }
    requires bears { AllByRecursion IsBearing early.old }
    ensures bears { AllByRecursion IsBearing early.new }
    ensures ends { SameProducer out.old out.new × SameConsumer into.old into.new }
    ensures none { backlog.new ≡ [] }
    ensures gone { sent out.new ≡ sent out.old ++ backlog.old }
    ensures whole { received into.new ++ known_items into.new ≡ sent out.new }
    ensures early_few { length early.new ≤ MOST_FRAMES }
    ensures early { (more : List Parcel) × (early.new ≡ early.old ++ more) ×
        (received into.old ++ more ≡ received into.new) }
{
    into.slots_beside(out);
    if backlog.is_empty() {
        return;
    }
    take_in(into, early);
    out.slots_beside(into);
    refill(out, backlog);
    into.slots_beside(out);
}

impl Link {
    /// The neighbour.
    pub fn peer(&self) -> NodeId
        ensures { result ≡ self.now.peer }
    {
        self.peer
    }

    /// The number of the last frame that was sent.
    pub fn sent(&self) -> u64
        ensures { result ≡ self.now.sent }
    {
        self.sent
    }

    /// Whether frames were sent or taken since the last look, or came out of the ring.
    pub fn is_used(&self) -> bool
        ensures { result ≡ self.now.used }
    {
        self.used
    }

    /// Sends a frame with the stamp of the log's line that sends it. It is dropped exactly where 256
    /// stand in the ring. It takes no memory.
    pub fn send(&mut self, frame: Bytes, stamp: u64)
        requires numbers { self.old.sent + 1 < 2 ^ 64 }
        requires stamps { AllByRecursion (λ p. p.stamp ≤ stamp) (gone_of self.old) }
        requires bears { BearsSome frame }
        ensures sent { view_of self.new ≡ with_parcel stamp frame (view_of self.old) }
        ensures ends { SameEnds self.old self.new }
        ensures into { self.new.into ≡ self.old.into }
        ensures early { self.new.early ≡ self.old.early }
        ensures used { self.new.used ≡ true }
    {
        self.used = true;
        self.sent += 1;
        if self.standing < MOST_FRAMES {
            self.standing += 1;
            let number = self.sent;
            let parcel = Parcel {
                number,
                stamp,
                frame,
            };
            put(&mut self.out, &mut self.backlog, parcel);
        }
    }

    /// What came first and wasn't taken, which stays. None: nothing is known to stand in the ring.
    pub fn head(&mut self) -> Option<Head>
        ensures fetched { IsFetched self.old self.new }
        ensures bears { AllByRecursion IsBearing self.new.early }
        ensures head { MatchOption result
            ((self.new.early ≡ []) × (known_items self.new.into ≡ []))
            (λ h. IsHead h self.new.early) }
    {
        if fetch(&mut self.early, &mut self.into) {
            self.used = true;
        }
        self.early.head()
    }

    /// Takes the frame of which `head` told.
    pub fn take(&mut self) -> Parcel
        requires { 0 < length self.old.early }
        ensures { IsTaken result self.old self.new }
    {
        self.used = true;
        match self.early.pop() {
            Some(parcel) => parcel,
            None => unreachable!(),
        }
    }

    /// How many frames are known to stand in the ring.
    pub fn known(&self) -> usize
        ensures { result ≡ length self.now.early + length (known_items self.now.into) }
    {
        self.early.len() + self.into.cached_slots()
    }
}

impl Drop for Link {
    fn drop(self) {
        let Link {
            peer: _,
            used: _,
            sent: _,
            standing: _,
            out: _,
            backlog: _,
            into: _,
            early: _,
        } = self;
    }
}

/// The two ends of a new link between the first node and the second.
pub fn join(alloc: Global, a: NodeId, b: NodeId) -> Result<(Link, Link), OutOfMemory>
    ensures ends { IfOk result (λ links. AreEnds links.0 links.1) }
    ensures first { IfOk result (λ links. IsNew b links.0) }
    ensures second { IfOk result (λ links. IsNew a links.1) }
{
    let (out, back_into) = ring(alloc)?;
    let (back_out, into) = ring(alloc)?;
    let here = Link {
        peer: b,
        used: false,
        sent: 0,
        standing: 0,
        out,
        backlog: Parcels::new(alloc)?,
        into,
        early: Parcels::new(alloc)?,
    };
    let there = Link {
        peer: a,
        used: false,
        sent: 0,
        standing: 0,
        out: back_out,
        backlog: Parcels::new(alloc)?,
        into: back_into,
        early: Parcels::new(alloc)?,
    };
    Ok((here, there))
}

/// Looks at both rings between two links, and takes no memory. After it each end knows what stands
/// in its ring, and how many frames stand in the other.
pub fn look(a: &mut Link, b: &mut Link)
    requires ends { AreEnds a.old b.old }
    requires few { AreFew a.old b.old }
    ensures ends { AreEnds a.new b.new }
    ensures there { IsLooked a.old a.new b.old b.new }
    ensures back { IsLooked b.old b.new a.old a.new }
{
    hand_over(&mut a.out, &mut a.backlog, &mut b.into, &mut b.early);
    hand_over(&mut b.out, &mut b.backlog, &mut a.into, &mut a.early);
    a.standing = b.early.len() + b.into.cached_slots();
    b.standing = a.early.len() + a.into.cached_slots();
    a.used = false;
    b.used = false;
}

//! Parcels that wait.

ghost use Rattle.std.specs.{Prelude.{◌≡◌, ◌<◌, ◌++◌, ◌∷◌, [], ◌≤◌, ◌==◌, IfOk, MatchOption, length}, VecDeque.deque_capacity};
ghost use Rattle.ason_base.specs.declared.limits.TheConstants.{MOST_FRAMES};
ghost use Rattle.station_rings.specs.LinkStates.{IsHead};

use crate::Parcel;
use ason_base::OutOfMemory;
use ason_base::limits::MOST_FRAMES;
use std::alloc::Global;
use std::collections::VecDeque;
use std::marker::Model;

/// What is known of a parcel before it is taken.
#[derive(Clone, Copy, Drop)]
pub struct Head {
    pub number: u64,
    pub stamp: u64,
}

/// At most 256 parcels, the oldest first. The room for them is there from the start.
#[derive(Drop)]
pub struct Parcels {
    parcels: VecDeque<Parcel>,
    ghost room: { MOST_FRAMES ≤ deque_capacity parcels },
}

impl Model for Parcels {
    ghost use Rattle.std.specs.Prelude.{List};
    ghost use Rattle.station_rings.specs.declared.parcel.Parcel.{Parcel};

    ghost Value = { List Parcel };

    ghost view = { λ p. p.parcels.items };
}

impl Parcels {
    /// No parcel.
    pub fn new(alloc: Global) -> Result<Parcels, OutOfMemory>
        ensures { IfOk result (λ p. p ≡ []) }
    {
        let parcels = VecDeque::with_capacity(alloc, MOST_FRAMES)?;
        Ok(Parcels { parcels })
    }

    /// Puts a parcel at the end. It takes no memory.
    pub fn push(&mut self, parcel: Parcel)
        requires { length self.old < MOST_FRAMES }
        ensures { self.new ≡ self.old ++ parcel ∷ [] }
    {
        self.parcels.push_back_reserved(parcel);
    }

    /// Takes the first parcel. Where it is the only one, its place is that of the next one: parcels that come one by one
    /// touch one place and not each of 256.
    pub fn pop(&mut self) -> Option<Parcel>
        ensures { MatchOption result ((self.old ≡ []) × (self.new ≡ []))
            (λ p. self.old ≡ p ∷ self.new) }
    {
        if self.parcels.len() == 1 {
            self.parcels.pop_back()
        } else {
            self.parcels.pop_front()
        }
    }

    /// What is known of the first parcel, which stays.
    pub fn head(&self) -> Option<Head>
        ensures { MatchOption result (self.now ≡ []) (λ h. IsHead h self.now) }
    {
        match self.parcels.front() {
            None => None,
            Some(parcel) => Some(Head {
                number: parcel.number,
                stamp: parcel.stamp,
            }),
        }
    }

    /// How many parcels wait.
    pub fn len(&self) -> usize
        ensures { result ≡ length self.now }
    {
        self.parcels.len()
    }

    /// Whether none waits.
    pub fn is_empty(&self) -> bool
        ensures { result ≡ length self.now == 0 }
    {
        self.parcels.is_empty()
    }
}

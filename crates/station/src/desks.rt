//! The desk of a node: items that wait for its controller.

ghost use Rattle.std.specs.Prelude.{◌≡◌, ◌<◌, ◌≤◌, ◌+◌, ◌++◌, ◌∷◌, [], OnErr, OnOk, length};

use ason_base::{DeskItem, OutOfMemory};
use std::alloc::Global;
use std::collections::VecDeque;
use std::marker::Model;

/// The room that a full desk gets at least.
const LEAST_ROOM: usize = 4;

/// Items, the oldest first.
pub struct Desk {
    items: VecDeque<DeskItem>,
}

impl Model for Desk {
    ghost use Rattle.std.specs.Prelude.{◌-◌};
    ghost use Rattle.std.specs.VecDeque.{deque_capacity, deque_len};
    ghost use Rattle.station.specs.Desks.{DeskState};

    ghost Value = { DeskState };

    ghost view = { λ d. record {
      items = d.items.items;
      spare = deque_capacity d.items - deque_len d.items;
    } };
}

impl Desk {
    /// An empty desk.
    pub(crate) fn new(alloc: Global) -> Desk
        ensures { result.items ≡ [] }
    {
        Desk {
            items: VecDeque::new(alloc),
        }
    }

    /// Makes room for so many items more.
    pub(crate) fn make_room(&mut self, items: usize) -> Result<(), OutOfMemory>
        ensures ok { OnOk result (items ≤ self.new.spare) }
        ensures same { self.new.items ≡ self.old.items }
        ensures err { OnErr result (self.new ≡ self.old) }
    {
        self.items.reserve_exact(items)?;
        Ok(())
    }

    // Puts an item at the end. There is room for it.
    fn put(&mut self, item: DeskItem)
        requires { 0 < self.old.spare }
        ensures items { self.new.items ≡ self.old.items ++ item ∷ [] }
        ensures spare { self.old.spare ≡ self.new.spare + 1 }
    {
        self.items.push_back_reserved(item);
    }

    /// Puts an item at the end. Where there is room this isn't refused.
    pub(crate) fn push(&mut self, item: DeskItem) -> Result<(), OutOfMemory>
        ensures ok { OnOk result (self.new.items ≡ self.old.items ++ item ∷ []) }
        ensures spare { OnOk result (self.old.spare ≤ self.new.spare + 1) }
        ensures err { OnErr result (self.new ≡ self.old) }
        ensures full { OnErr result (self.old.spare ≡ 0) }
    {
        let len = self.items.len();
        if len == self.items.capacity() {
            self.make_room(len.max(LEAST_ROOM))?;
        }
        self.put(item);
        Ok(())
    }

    /// Takes the first item, which leaves room for it.
    pub(crate) fn pop(&mut self) -> DeskItem
        requires { 0 < length self.old.items }
        ensures first { self.old.items ≡ result ∷ self.new.items }
        ensures room { 0 < self.new.spare }
    {
        match self.items.pop_front() {
            Some(item) => item,
            None => unreachable!(),
        }
    }

    /// Puts an item that was taken back to its place, the first. There is room for it.
    pub(crate) fn put_back(&mut self, item: DeskItem)
        requires { 0 < self.old.spare }
        ensures { self.new.items ≡ item ∷ self.old.items }
    {
        self.items.push_front_reserved(item);
    }

    /// How many items wait.
    pub(crate) fn len(&self) -> usize
        ensures { result ≡ length self.now.items }
    {
        self.items.len()
    }
}

impl Drop for Desk {
    fn drop(self) {
        let Desk { items: _ } = self;
    }
}

//! The rows that a node knows, their links and their different ends.

ghost use Rattle.std.specs.{Prelude.{◌≡◌, ◌^◌, ◌==◌, ◌≤◌, ◌<◌, ◌+◌, ◌∷◌, ◌++◌, ◌||◌, ℕ, [], OnErr, OnOk, length, nat_le, vec_capacity, vec_len}, List.list_any, List.Sorted.IsNonDecreasing};
ghost use Rattle.flood.specs.State.{AreAlike, has_room, is_known, with_end, with_ends};

use ason_base::limits::{MOST_LINKS, MOST_NODES};
use ason_base::{Copied, LinkId, OutOfMemory, TeRow, copy_all};
use std::alloc::Global;
use std::marker::Model;

/// The known rows, in order of learning. Beside them stand the numbers of their links and of their different ends, both
/// rising, so that neither is looked for among all rows.
pub struct KnownRows {
    rows: Vec<TeRow>,
    links: Vec<u32>,
    ends: Vec<u32>,
}

impl Model for KnownRows {
    ghost use Rattle.std.specs.Prelude.{List};
    ghost use Rattle.ason_base.specs.declared.network.TeRow.{TeRow};
    ghost use Rattle.flood.specs.State.{IsIndexed};

    ghost Value = { List TeRow };

    ghost view = { λ k. k.rows.items };

    ghost invariant = { λ k. IsIndexed k.rows.items k.links.items k.ends.items };
}

impl KnownRows {
    /// No row.
    pub fn new(alloc: Global) -> KnownRows
        ensures { result ≡ [] }
    {
        KnownRows {
            rows: Vec::new(alloc),
            links: Vec::new(alloc),
            ends: Vec::new(alloc),
        }
    }

    /// The rows, in order of learning.
    pub fn items(&self) -> &[TeRow]
        ensures { result.now ≡ self.now }
    {
        &self.rows
    }

    /// Whether a row of this link is among them.
    pub fn has_link(&self, link: LinkId) -> bool
        ensures { result ≡ is_known self.now link }
    {
        has_number(&self.links, link.0)
    }

    /// Whether they keep their limits with this one.
    pub fn has_room(&self, row: &TeRow) -> bool
        ensures { result ≡ has_room self.now row.now }
    {
        self.rows.len() < MOST_LINKS && has_room_for_ends(&self.ends, row)
    }

    /// Adds a row at the end. Where memory runs out, nothing has changed.
    pub fn add(&mut self, row: TeRow) -> Result<(), OutOfMemory>
        ensures ok { OnOk result (self.new ≡ self.old ++ row ∷ []) }
        ensures err { OnErr result (self.new ≡ self.old) }
    {
        self.rows.reserve(1)?;
        self.links.reserve(1)?;
        self.ends.reserve(2)?;
        insert_number(&mut self.links, row.link.0);
        add_ends(&mut self.ends, &row);
        self.rows.push(row)?;
        Ok(())
    }
}

impl Copied for KnownRows {
    fn copy(&self, alloc: Global) -> Result<KnownRows, OutOfMemory> {
        let rows = copy_all(alloc, &self.rows)?;
        let links = Vec::from_slice(alloc, &self.links)?;
        let ends = Vec::from_slice(alloc, &self.ends)?;
        Ok(KnownRows { rows, links, ends })
    }
}

impl Drop for KnownRows {
    fn drop(self) {
        let KnownRows {
            rows: _,
            links: _,
            ends: _,
        } = self;
    }
}

/// Whether the number is among these, which rise.
fn has_number(numbers: &[u32], n: u32) -> bool
    requires { IsNonDecreasing numbers.now }
    ensures { result ≡ list_any (λ m. m == n) numbers.now }
{
    numbers.binary_search(&n).is_ok()
}

/// Puts a number in its place, if it isn't there. There is room for it.
fn insert_number(numbers: &mut Vec<u32>, n: u32)
    requires room { vec_len numbers.old < vec_capacity numbers.old }
    requires rising { IsNonDecreasing numbers.old.items }
    ensures rising { IsNonDecreasing numbers.new.items }
    ensures has { (m : ℕ) → list_any (λ k. k == m) numbers.new.items ≡
        (list_any (λ k. k == m) numbers.old.items || (n == m)) }
    ensures count { length numbers.new.items ≡ length (with_end numbers.old.items n) }
    ensures len { vec_len numbers.new ≤ vec_len numbers.old + 1 }
    ensures capacity { vec_capacity numbers.old ≤ vec_capacity numbers.new }
{
    if let Err(place) = numbers.binary_search(&n) {
        match numbers.insert(place, n) {
            Ok(()) => {}
            Err(_) => unreachable!(),
        }
    }
}

/// How many ends there are with those of the row.
fn ends_with(ends: &[u32], row: &TeRow) -> usize
    requires few { length ends.now + 2 < 2 ^ 64 }
    requires rising { IsNonDecreasing ends.now }
    ensures { result ≡ length (with_ends ends.now row.now) }
{
    let mut count = ends.len();
    if !has_number(ends, row.low.0) {
        count += 1;
    }
    if row.low.0 != row.high.0 && !has_number(ends, row.high.0) {
        count += 1;
    }
    count
}

/// Whether there are few enough ends with those of the row. They are counted only where two more would be too many.
fn has_room_for_ends(ends: &[u32], row: &TeRow) -> bool
    requires few { length ends.now + 2 < 2 ^ 64 }
    requires rising { IsNonDecreasing ends.now }
    ensures { result ≡ nat_le (length (with_ends ends.now row.now)) MOST_NODES }
{
    ends.len() + 2 <= MOST_NODES || ends_with(ends, row) <= MOST_NODES
}

// Adds the ends of a row. There is room for both.
fn add_ends(ends: &mut Vec<u32>, row: &TeRow)
    requires room { vec_len ends.old + 2 ≤ vec_capacity ends.old }
    requires rising { IsNonDecreasing ends.old.items }
    ensures rising { IsNonDecreasing ends.new.items }
    ensures alike { AreAlike ends.new.items (with_ends ends.old.items row.now) }
{
    insert_number(ends, row.low.0);
    insert_number(ends, row.high.0);
}

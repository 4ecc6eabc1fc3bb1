//! Who reads a node's tables.

ghost use Rattle.std.specs.Prelude.{◌≡◌, ◌≤◌, length, IfOk, IfSome, IsSome, IsTrue, OnErr, true};
ghost use Rattle.std.proofs.Props.{props};
ghost use Rattle.left_right.specs.Sides.{view};
ghost use Rattle.mgmt_view.specs.{Tables.{EndsWith, StartsWith}, Viewing.{HasKeptView, HasLearnt, HasLearntLast, HasReadTable, told_to}};

use crate::node_table::NodeTable;
use crate::rule::{Sees, ShelfReader};
use crate::told::Told;
use ason_base::{Copied, OutOfMemory};
use std::alloc::Global;
use std::marker::Model;

/// A viewer of what a publisher publishes, in whatever thread it is.
#[derive(Drop)]
pub struct Viewer {
    reader: Option<ShelfReader>,
    kept: NodeTable,
    count: u64,
    is_new: bool,
    ghost ready: { IsSome reader } by { Prim.hlevel props },
    ghost learnt: { is_new ≡ true → EndsWith (told_to reader) kept } by { Prim.hlevel props },
    ghost counted: { is_new ≡ true → count ≡ length (told_to reader) },
}

impl Model for Viewer {
    ghost use Rattle.mgmt_view.specs.Viewing.{ViewerState, seen_by, told_to};

    ghost Value = { ViewerState };

    ghost view = { λ v. record {
      seen = seen_by v.reader;
      told = told_to v.reader;
      kept = v.kept;
      count = v.count;
      is_new = v.is_new;
    } };
}

/// A table that was read, and its number among those that are published.
#[derive(Drop)]
struct Found {
    table: NodeTable,
    count: u64,
}

// The last table of what is then published, which begins with all that this reader saw or was told of; none where there is
// no publisher any more.
fn look(reader: ShelfReader, alloc: Global) -> (ShelfReader, Result<Option<Found>, OutOfMemory>)
    ensures last { IfOk result.1 (λ found. IfSome found (λ f. EndsWith (view result.0.place).seen f.table)) }
    ensures count { IfOk result.1 (λ found. IfSome found (λ f. f.count ≡ length (view result.0.place).seen)) }
    ensures all { IfOk result.1 (λ found. IfSome found
        (λ f. StartsWith (view result.0.place).seen (view reader.place).told)) }
    ensures later { StartsWith (view result.0.place).seen (view reader.place).seen }
    ensures told { (view result.0.place).told ≡ (view reader.place).told }
{
    match reader.enter_as::<Sees>() {
        Ok(reading) => {
            let shelf = reading.get();
            let count = shelf.count;
            let table = shelf.past.last().copy(alloc);
            let reader = reading.leave();
            match table {
                Ok(table) => (reader, Ok(Some(Found { table, count }))),
                Err(refused) => (reader, Err(refused)),
            }
        }
        Err(reader) => (reader, Ok(None)),
    }
}

impl Viewer {
    /// It keeps the first table.
    pub(crate) fn new(reader: ShelfReader, first: NodeTable) -> Viewer
        ensures kept { result.kept ≡ first }
        ensures count { result.count ≡ 1 }
    {
        Viewer {
            reader: Some(reader),
            kept: first,
            count: 1,
            is_new: false,
        }
    }

    // Whether the table with this number is read, and not the one that is kept.
    fn is_next(&self, count: u64) -> bool
        ensures later { IsTrue result → self.now.count ≤ count }
        ensures same { IsTrue result → self.now.is_new ≡ true → count ≡ self.now.count }
    {
        if self.is_new {
            count == self.count
        } else {
            count >= self.count
        }
    }

    /// The last table of what is then published, or the one that is kept where that has a lesser number. Right after a
    /// token was learnt it is the last table of which that tells. After want of memory what is kept is as it was.
    pub fn read(&mut self, alloc: Global) -> Result<NodeTable, OutOfMemory>
        ensures read { IfOk result (HasReadTable self.old self.new) }
        ensures refused { OnErr result (HasKeptView self.old self.new) }
    {
        let reader = self.reader.take().unwrap();
        let (reader, found) = look(reader, alloc);
        self.reader = Some(reader);
        match found? {
            Some(found) if self.is_next(found.count) => {
                let copy = found.table.copy(alloc)?;
                self.kept = found.table;
                self.count = found.count;
                self.is_new = false;
                Ok(copy)
            }
            _ => {
                let copy = self.kept.copy(alloc)?;
                self.is_new = false;
                Ok(copy)
            }
        }
    }

    /// From now on it sees no less than the token tells, which is of its own publisher. It takes no memory.
    pub fn learn(&mut self, token: Told)
        ensures { HasLearnt self.old token self.new }
    {
        let Told {
            reader,
            table,
            count,
        } = token;
        let is_new = count >= self.count;
        self.reader = Some(reader);
        if is_new {
            self.kept = table;
            self.count = count;
        }
        self.is_new = is_new;
    }

    // Begins anew where it has read more tables than so many.
    fn forget_beyond(&mut self, count: u64)
        ensures few { self.new.count ≤ count }
        ensures same { self.old.count ≤ count → self.new ≡ self.old }
    {
        if self.count > count {
            self.is_new = false;
            self.count = 0;
        }
    }

    /// Learns the last token of a publisher, so that the next read is just the last table of which it tells. A viewer of
    /// this publisher has read no more tables; one that has is another's, and begins anew. It takes no memory.
    pub fn learn_last(&mut self, token: Told)
        ensures { HasLearntLast self.old token self.new }
    {
        self.forget_beyond(token.count);
        self.learn(token);
    }
}

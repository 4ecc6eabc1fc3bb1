//! Who publishes a node's tables.

ghost use Rattle.std.specs.{Prelude.{◌≡◌, ◌++◌, ◌∷◌, [], drop, IfOk, IsSome, OnErr, OnOk}, Option.option_map};
ghost use Rattle.std.proofs.Props.{props};
ghost use Rattle.left_right.specs.Sides.{view};
ghost use Rattle.mgmt_view.specs.{Tables.tables_of, Publishing.{MayTableStay, MayWait, RisesTo, published_first, with_published}, Viewing.{seen_at, told_at}};

use crate::node_table::NodeTable;
use crate::rule::{Notes, Sees, ShelfReader, ShelfWriter};
use crate::shelf::Shelf;
use crate::told::Told;
use crate::viewer::Viewer;
use ason_base::{Copied, OutOfMemory};
use std::alloc::{AllocError, Global};
use std::marker::Model;
use std::sync::Wait;

/// The most readers that there are at a time: that of the viewer, and that of a token.
const READERS: usize = 4;

/// What publishes a node's tables, in order. It isn't let go but by `end`.
pub struct Publisher {
    writer: Option<ShelfWriter>,
    ghost ready: { IsSome writer } by { Prim.hlevel props },
    ghost knows: { option_map (λ w. seen_at w.desk.place) writer
        ≡ option_map (λ w. tables_of w.desk.shown.value.past) writer } by { Prim.hlevel props },
}

impl Model for Publisher {
    ghost use Rattle.std.specs.Prelude.{drop};
    ghost use Rattle.std.specs.Option.{option_map};
    ghost use Rattle.mgmt_view.specs.Publishing.{PublisherState};
    ghost use Rattle.mgmt_view.specs.Viewing.{or_none, tables_in};

    ghost Value = { PublisherState };

    ghost view = { λ p. record {
      published = tables_in (option_map (λ w. w.desk.shown.value) p.writer);
      waiting = or_none (option_map (λ w. drop w.behind w.log.items) p.writer);
    } };
}

// Publishes what waits and then the table. Where that is refused nothing is published, and the table may wait.
fn publish_with<R: Wait>(
    rt: &R,
    mut writer: ShelfWriter,
    table: NodeTable,
) -> (ShelfWriter, Result<(), AllocError>)
    requires knows { seen_at writer.desk.place ≡ tables_of writer.desk.shown.value.past }
    ensures knows { seen_at result.0.desk.place ≡ tables_of result.0.desk.shown.value.past }
    ensures ok { OnOk result.1 (tables_of result.0.desk.shown.value.past
        ≡ tables_of writer.desk.shown.value.past ++ (drop writer.behind writer.log.items ++ table ∷ [])) }
    ensures none { OnOk result.1 (drop result.0.behind result.0.log.items ≡ []) }
    ensures err { OnErr result.1 (result.0.desk.shown.value ≡ writer.desk.shown.value) }
    ensures waits { OnErr result.1 (MayTableStay (drop writer.behind writer.log.items) table
        (drop result.0.behind result.0.log.items)) }
{
    let Ok(()) = writer.append(table) else {
        return (writer, Err(AllocError));
    };
    writer.publish_as::<Sees, R>(rt)
}

// A reader that was told of all that is published.
fn told_reader(writer: &mut ShelfWriter) -> Result<ShelfReader, AllocError>
    ensures told { IfOk result (λ r. told_at r.place ≡ seen_at writer.old.desk.place) }
    ensures place { view writer.new.desk.place ≡ view writer.old.desk.place }
    ensures shown { writer.new.desk.shown ≡ writer.old.desk.shown }
    ensures log { (writer.new.log ≡ writer.old.log) × (writer.new.behind ≡ writer.old.behind) }
{
    let mut reader = writer.factory().reader()?;
    reader.learn::<Notes>(writer.tell::<Notes>());
    Ok(reader)
}

// A token of all that is published.
fn told_with(writer: &mut ShelfWriter, alloc: Global) -> Result<Told, OutOfMemory>
    requires knows { seen_at writer.old.desk.place ≡ tables_of writer.old.desk.shown.value.past }
    ensures told { IfOk result (λ t. t ≡ tables_of writer.old.desk.shown.value.past) }
    ensures knows { seen_at writer.new.desk.place ≡ seen_at writer.old.desk.place }
    ensures shown { writer.new.desk.shown ≡ writer.old.desk.shown }
    ensures log { (writer.new.log ≡ writer.old.log) × (writer.new.behind ≡ writer.old.behind) }
{
    let shelf = writer.published();
    let count = shelf.count;
    let table = shelf.past.last().copy(alloc)?;
    let reader = told_reader(writer)?;
    Ok(Told {
        reader,
        table,
        count,
    })
}

impl Publisher {
    /// Publishes what waits and then the table, which is of a log no shorter than the last one's. It may wait for a viewer
    /// that reads. After want of memory nothing is published by this call; the table may wait then, and is published
    /// before that of the next call that isn't refused.
    pub fn publish<R: Wait>(&mut self, rt: &R, table: NodeTable) -> Result<(), OutOfMemory>
        requires rises { RisesTo self.old table }
        ensures ok { OnOk result (self.new ≡ with_published self.old table) }
        ensures err { OnErr result (MayWait self.old table self.new) }
    {
        let writer = self.writer.take().unwrap();
        let (writer, answer) = publish_with(rt, writer, table);
        if let Some(old) = self.writer.replace(writer) {
            let _last = old.take(rt);
        }
        answer?;
        Ok(())
    }

    /// A token of all that is published, with a copy of the last table.
    pub fn told(&mut self, alloc: Global) -> Result<Told, OutOfMemory>
        ensures told { IfOk result (λ t. t ≡ self.old.published) }
        ensures same { self.new ≡ self.old }
    {
        told_with(self.writer.as_mut().unwrap(), alloc)
    }

    /// Ends it. It may wait for a viewer that reads.
    pub fn end<R: Wait>(self, rt: &R) {
        let Publisher { writer } = self;
        let _last = writer.unwrap().take(rt);
    }
}

/// A publisher that has published the first table, and a viewer that keeps it.
pub fn pair<R: Wait>(
    rt: &R,
    alloc: Global,
    first: NodeTable,
) -> Result<(Publisher, Viewer), OutOfMemory>
    ensures publisher { IfOk result (λ p. p.0 ≡ published_first first) }
    ensures kept { IfOk result (λ p. p.1.kept ≡ first) }
    ensures count { IfOk result (λ p. p.1.count ≡ 1) }
{
    let kept = first.copy(alloc)?;
    let second = first.copy(alloc)?;
    let one = Shelf::new(alloc, first);
    let two = Shelf::new(alloc, second);
    let writer = ShelfWriter::new(alloc, one, two, READERS)?;
    // So the writer has seen the first table too.
    let (writer, shown) = writer.publish_as::<Sees, R>(rt);
    let reader = writer.factory().reader();
    match (shown, reader) {
        (Ok(()), Ok(reader)) => Ok((
            Publisher {
                writer: Some(writer),
            },
            Viewer::new(reader, kept),
        )),
        _ => {
            let _last = writer.take(rt);
            Err(OutOfMemory)
        }
    }
}

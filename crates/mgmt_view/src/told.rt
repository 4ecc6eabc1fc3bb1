//! A token of all that is published.

ghost use Rattle.std.specs.Prelude.{◌≡◌, length};
ghost use Rattle.std.proofs.Props.{props};
ghost use Rattle.mgmt_view.specs.{Tables.EndsWith, Viewing.told_at};

use crate::node_table::NodeTable;
use crate::rule::ShelfReader;
use std::marker::Model;

/// A token of all that was published when it was made, which contracts see as those tables: a reader that was told of
/// them, a copy of the last one, and how many they are.
#[derive(Drop)]
pub struct Told {
    pub(crate) reader: ShelfReader,
    pub(crate) table: NodeTable,
    pub(crate) count: u64,
    ghost last: { EndsWith (told_at reader.place) table } by { Prim.hlevel props },
    ghost counted: { count ≡ length (told_at reader.place) },
}

impl Model for Told {
    ghost use Rattle.std.specs.Prelude.{List};
    ghost use Rattle.mgmt_view.specs.Viewing.{told_at};
    ghost use Rattle.mgmt_view.specs.declared.node_table.NodeTable.{NodeTable};

    ghost Value = { List NodeTable };

    ghost view = { λ t. told_at t.reader.place };
}

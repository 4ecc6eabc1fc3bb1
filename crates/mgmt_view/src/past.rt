//! The last table, with those before it as clauses alone see them.

ghost use Rattle.std.specs.Prelude.{◌≡◌, ◌∷◌, ◌++◌, []};
ghost use Rattle.mgmt_view.specs.Tables.{last_table, tables_of};

use crate::node_table::NodeTable;
use std::snapshot::Snapshot;

/// All tables that were published, of which the last alone is kept: a snapshot takes no memory.
#[derive(Drop)]
pub enum Past {
    First(NodeTable),
    Then(NodeTable, Snapshot<Past>),
}

impl Past {
    /// The table that stands last.
    pub fn last(&self) -> &NodeTable
        ensures { result.now ≡ last_table self.now }
    {
        match self {
            Past::First(table) => table,
            Past::Then(table, _) => table,
        }
    }

    /// The tables and one more.
    pub fn then(&self, table: NodeTable) -> Past
        ensures all { tables_of result ≡ tables_of self.now ++ table ∷ [] }
        ensures last { last_table result ≡ table }
    {
        Past::Then(table, Snapshot::of(self))
    }
}

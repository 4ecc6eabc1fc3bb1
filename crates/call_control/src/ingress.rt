//! What an ingress has: its number, its legs, its calls and the owner of its labels.

ghost use Rattle.std.specs.{Prelude.◌≡◌, Option.option_copied};
ghost use Rattle.mesh_rules.specs.Legs.{leg_of};
ghost use Rattle.leg_table.specs.States.{local_of};

use ason_base::{Leg, Lsp, NodeId};
use leg_table::{Calls, NodeTables};
use link_owner::Owner;

/// What an ingress has, for reading: its tables, the owner of its labels and its calls.
#[derive(Clone, Copy, Drop)]
pub struct IngressParts<'a> {
    pub tables: &'a NodeTables,
    pub owner: &'a Owner,
    pub calls: &'a Calls,
}

/// The node's number.
pub fn id_of(tables: &NodeTables) -> NodeId
    ensures { result ≡ (local_of tables.now).id }
{
    tables.node().id
}

/// The leg of an LSP that a call names.
pub fn leg_of(tables: &NodeTables, lsp: Option<Lsp>) -> Option<&Leg>
    ensures { option_copied result ≡ leg_of lsp tables.now.legs }
{
    match lsp {
        None => None,
        Some(lsp) => tables.get(&lsp),
    }
}

//! What an ingress asks before an LSP begins: its first link, and room for a leg.

ghost use Rattle.std.specs.{Prelude.{◌≡◌, ◌≤◌, IfSome, IsTrue}, Option.option_copied};
ghost use Rattle.ason_base.specs.declared.limits.TheConstants.{MOST_LABELS};
ghost use Rattle.mesh_rules.specs.{FirstLegs.{first_link, is_full}, LocalNodes.own_link};
ghost use Rattle.mesh_nodes.specs.LocalNodes.{LocalNodeFits};
ghost use Rattle.leg_table.specs.States.{legs_state, local_of};
ghost use Rattle.call_control.specs.Rules.{comes_back};

use crate::id_of;
use ason_base::{LinkId, LinkSpec, Steps};
use leg_table::NodeTables;
use mesh_rules::limits::{MOST_LEGS, MOST_LINKS_OF_ROUTE};

fn own_link(tables: &NodeTables, link: LinkId) -> Option<&LinkSpec>
    requires { LocalNodeFits (local_of tables.now) }
    ensures found { option_copied result ≡ own_link (local_of tables.now) link }
    ensures narrow { IfSome (option_copied result) (λ l. l.labels ≤ MOST_LABELS) }
    ensures back { IfSome (option_copied result) (λ l. IsTrue (comes_back tables.now l)) }
{
    tables.own(link)
}

/// The link of the route's first step, if the route may be followed from here.
pub(crate) fn first_link<'a>(tables: &'a NodeTables, route: &Steps) -> Option<&'a LinkSpec>
    requires { LocalNodeFits (local_of tables.now) }
    ensures found { option_copied result ≡ first_link (local_of tables.now) route.now }
    ensures narrow { IfSome (option_copied result) (λ l. l.labels ≤ MOST_LABELS) }
    ensures back { IfSome (option_copied result) (λ l. IsTrue (comes_back tables.now l)) }
{
    match route.items() {
        [] => None,
        [hop, others @ ..] => {
            if hop.node == id_of(tables) && others.len() < MOST_LINKS_OF_ROUTE {
                own_link(tables, hop.link)
            } else {
                None
            }
        }
    }
}

/// Whether the node has all the legs that it keeps.
pub(crate) fn is_full(tables: &NodeTables) -> bool
    ensures { result ≡ is_full (legs_state tables.now) }
{
    tables.count() >= MOST_LEGS
}

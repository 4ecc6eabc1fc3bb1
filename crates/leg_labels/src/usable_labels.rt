//! The labels that a leg may take, and whether other legs keep its labels busy.

ghost use Rattle.std.specs.Prelude.{◌≡◌, IsTrue};
ghost use Rattle.mesh_rules.specs.Legs.{is_contended, label_through, usable};
ghost use Rattle.leg_table.specs.{LegClaims.{AreOfOneNode, ClaimsFit, is_fibre_in}, States.local_of};

use crate::marks::is_lit_over;
use ason_base::{Fibre, Label, LabelSet, Leg, RiskSet, Role};
use leg_table::NodeTables;
use link_owner::Owner;
use share_check::Shares;

/// The labels of a fibre that comes in which a leg of this role may take, whose primary has these risks: those that no
/// leg takes, and for a backup those too that backups share whose primaries have none of the risks. No leg is looked at.
pub fn usable(
    tables: &NodeTables,
    owner: &Owner,
    shares: &Shares,
    role: Role,
    risks: &RiskSet,
    f: Fibre,
) -> LabelSet
    requires node { AreOfOneNode tables.now owner.now shares.now }
    requires comes_in { IsTrue (is_fibre_in (local_of tables.now) f) }
    ensures { result ≡ usable (local_of tables.now) tables.now.legs role risks.now f }
{
    tables.rises();
    match role {
        Role::Work => owner.unclaimed(f),
        Role::Back => {
            let labels = owner.shareable(f);
            labels.rises();
            labels.meet(&shares.fitting(f, risks))
        }
    }
}

/// Whether a marked leg of another LSP uses a label that the leg uses, so that the leg can't be activated. No leg and no
/// claim is looked at.
pub fn is_contended(tables: &NodeTables, owner: &Owner, leg: &Leg) -> bool
    requires claims { ClaimsFit tables.now.legs owner.now }
    ensures { result ≡ is_contended tables.now.legs leg.now }
{
    tables.rises();
    is_lit_over(owner, leg)
}

/// The label with which an LSP goes on: of these the least where the node converts, at another one the label that came.
pub fn label_through(tables: &NodeTables, labels: &LabelSet, label: Label) -> Option<Label>
    ensures { result ≡ label_through (local_of tables.now) labels.now label }
{
    if tables.node().convert {
        labels.least()
    } else if labels.has(label) {
        Some(label)
    } else {
        None
    }
}

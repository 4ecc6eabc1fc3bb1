//! An LSP at the node where it begins: its leg, and the Path that asks for it (RFC 2205, section
//! 3.1.3).

ghost use Rattle.std.specs.Prelude.{◌≡◌, ◌≤◌, IfOk, IsTrue, OnOk};
ghost use Rattle.ason_base.specs.declared.limits.TheConstants.{MOST_LABELS};
ghost use Rattle.mesh_rules.specs.{Changes.followed_by, FirstLegs.first_leg, Paths.{recorded, role_of}};
ghost use Rattle.leg_table.specs.{LegClaims.AreOfOneNode, States.local_of};
ghost use Rattle.call_control.specs.Rules.{asked_here, back_here, comes_back, path_for};

use crate::{IngressParts, id_of};
use ason_base::routes::other_end;
use ason_base::{
    Copied, Label, LabelSet, Leg, LinkSpec, Lsp, Msg, NodeId, OutOfMemory, PathRole, Phase,
    RiskSet, Role, Steps,
};
use leg_labels::usable;
use leg_table::{Change, NodeTables};
use mesh_rules::links::{fibre_out, reverse};
use share_check::Shares;
use std::alloc::Global;
use std::marker::Model;

/// An LSP that is asked for: over which link it leaves, over which steps it goes on from there,
/// for what, and, of a two-way LSP, the label on which it comes back over that link.
#[derive(Drop)]
pub(crate) struct NewLsp<'a> {
    pub(crate) lsp: Lsp,
    pub(crate) egress: NodeId,
    pub(crate) out: &'a LinkSpec,
    pub(crate) route: Steps,
    pub(crate) role: PathRole,
    pub(crate) back: Option<Label>,
}

impl<'a> Model for NewLsp<'a> {
    ghost use Rattle.mesh_rules.specs.FirstLegs as first_legs;

    ghost Value = { first_legs.NewLsp };

    ghost view = { λ n. record {
      lsp = n.lsp;
      egress = n.egress;
      out = n.out.now;
      route = n.route;
      role = n.role;
      back = n.back;
    } };
}

fn role_of(role: &PathRole) -> Role
    ensures { result ≡ role_of role.now }
{
    match role {
        PathRole::Work { .. } => Role::Work,
        PathRole::Back { .. } => Role::Back,
    }
}

fn path_for(alloc: Global, new: &NewLsp<'_>) -> Result<Msg, OutOfMemory>
    requires { new.now.out.labels ≤ MOST_LABELS }
    ensures { IfOk result (λ m. m ≡ path_for new.now) }
{
    Ok(Msg::Path {
        lsp: new.lsp,
        egress: new.egress,
        link: new.out.id,
        route: new.route.copy(alloc)?,
        set: LabelSet::upto(new.out.labels),
        upstream: new.back,
        role: new.role.copy(alloc)?,
    })
}

fn first_leg(tables: &NodeTables, new: NewLsp<'_>, risks: RiskSet) -> Leg
    requires narrow { new.out.labels ≤ MOST_LABELS }
    requires risks { risks ≡ recorded tables.now.rows new.role }
    ensures { result ≡ first_leg (local_of tables.now) tables.now.rows new.entry }
{
    let NewLsp {
        lsp,
        egress,
        out,
        route,
        role,
        back,
    } = new;
    let here = id_of(tables);
    Leg {
        lsp,
        egress,
        role: role_of(&role),
        prev: None,
        next: Some(other_end(out, here)),
        in_fibre: None,
        out_fibre: Some(fibre_out(out, here)),
        offered: LabelSet::empty(),
        sent: LabelSet::upto(out.labels),
        route,
        path_role: role,
        risks,
        phase: Phase::Asked,
        in_label: None,
        out_label: None,
        back_in: back,
        back_out: None,
    }
}

/// The label on which a two-way LSP of this role, whose primary has these risks, comes back over
/// its first link: the least that it may take. There is none for a one-way LSP, nor where no label
/// is left.
pub(crate) fn first_back(
    parts: &IngressParts<'_>,
    shares: &Shares,
    both: bool,
    role: Role,
    risks: &RiskSet,
    out: &LinkSpec,
) -> Option<Label>
    requires node { AreOfOneNode parts.now.tables.now parts.now.owner.now shares.now }
    requires out { IsTrue (comes_back parts.now.tables.now out.now) }
    ensures { result ≡ back_here parts.now.tables.now both role risks.now out.now }
{
    if !both {
        return None;
    }
    let back = reverse(fibre_out(out, id_of(parts.tables)));
    usable(parts.tables, parts.owner, shares, role, risks, back).least()
}

/// The LSP is asked for: its leg is put in its place, with these risks of its primary, and the
/// Path is sent.
pub(crate) fn ask_for(
    alloc: Global,
    change: &mut Change,
    tables: &NodeTables,
    new: NewLsp<'_>,
    risks: RiskSet,
) -> Result<(), OutOfMemory>
    requires narrow { new.out.labels ≤ MOST_LABELS }
    requires risks { risks ≡ recorded tables.now.rows new.role }
    ensures { OnOk result (change.new ≡ followed_by change.old (asked_here tables.now new.entry)) }
{
    let path = path_for(alloc, &new)?;
    change.send(other_end(new.out, id_of(tables)), path)?;
    change.put(first_leg(tables, new, risks))
}

//! A Path that activates a backup whose leg stands here.

ghost use Rattle.std.specs.Prelude.{◌≡◌, IfOk, drop};
ghost use Rattle.ason_base.specs.declared.messages.Msg.TheVariants.{Path};
ghost use Rattle.mesh_rules.specs.{Activations.armed_on, Legs.following};
ghost use Rattle.leg_table.specs.LegClaims.{ClaimsFit};
ghost use Rattle.activation.specs.Answers.{activate_answer, activated_here, activating_here, busy_here};

use crate::resvs::go_live;
use ason_base::codes::BUSY;
use ason_base::{Copied, Leg, LinkId, Msg, NodeId, OutOfMemory, PathRole, Phase, Steps};
use leg_labels::is_contended;
use leg_table::changes::Changed;
use leg_table::one_leg::{following, is_held, is_over, path_err, previous, with_phase};
use leg_table::{Change, NodeTables};
use link_owner::Owner;
use mesh_rules::PathRequest;
use mesh_rules::readings::path_request;
use mesh_rules::roles::is_active;
use std::alloc::Global;

// A label of the leg is in use: the sender is told, and the leg stays.
fn refuse(alloc: Global, tables: &NodeTables, leg: &Leg, to: NodeId) -> Changed
    ensures { IfOk result (λ c. c ≡ busy_here tables.now leg.now to) }
{
    Change::sends(alloc, to, path_err(leg, tables.node().id, false, BUSY))
}

/// The Path that goes on over this link, with the steps that are left.
pub(crate) fn path_on(
    alloc: Global,
    leg: &Leg,
    link: LinkId,
    route: &Steps,
    role: &PathRole,
) -> Result<Msg, OutOfMemory>
    ensures { IfOk result (λ m. m ≡ Path leg.now.lsp leg.now.egress link (drop 1 route.now)
        leg.now.sent leg.now.back_in role.now) }
{
    Ok(Msg::Path {
        lsp: leg.lsp,
        egress: leg.egress,
        link,
        route: route.copy_from(alloc, 1)?,
        set: leg.sent.copy(),
        upstream: leg.back_in,
        role: role.copy(alloc)?,
    })
}

// The leg is Armed and the Path goes on, over the steps that are left; at the egress it is Live and
// a Resv goes back.
fn arm(alloc: Global, leg: &Leg, route: &Steps, role: &PathRole) -> Changed
    ensures { IfOk result
        (λ c. c ≡ armed_on leg.now (drop 1 route.now) role.now (following leg.now)) }
{
    let Some(next) = following(leg) else {
        return go_live(alloc, leg);
    };
    let msg = path_on(alloc, leg, next.fibre.link, route, role)?;
    Change::puts(alloc, with_phase(alloc, leg, Phase::Armed)?, next.node, msg)
}

fn activate_leg(
    alloc: Global,
    tables: &NodeTables,
    owner: &Owner,
    path: &PathRequest<'_>,
    leg: &Leg,
) -> Changed
    requires { ClaimsFit tables.now.legs owner.now }
    ensures { IfOk result (λ c. c ≡ activated_here tables.now path.now.arrival
        (drop 1 path.now.route) path.now.role leg.now) }
{
    if is_contended(tables, owner, leg) {
        refuse(alloc, tables, leg, path.arrival.from)
    } else {
        arm(alloc, leg, path.route, path.role)
    }
}

fn on_path(alloc: Global, tables: &NodeTables, owner: &Owner, path: &PathRequest<'_>) -> Changed
    requires { ClaimsFit tables.now.legs owner.now }
    ensures { IfOk result (λ c. c ≡ activating_here tables.now path.now.arrival
        (drop 1 path.now.route) path.now.role) }
{
    match tables.get(&path.arrival.lsp) {
        Some(leg)
            if is_active(path.role)
                && is_held(leg.phase)
                && is_over(previous(leg), path.arrival.from, path.arrival.link) => {
            activate_leg(alloc, tables, owner, path, leg)
        }
        _ => Ok(Change::nothing(alloc)),
    }
}

/// What a Path that activates would change and send at a leg that is Held: the leg is Armed and the
/// Path goes on; at the egress it is Live and a Resv goes back; where a label that it takes or sends
/// is in use by another backup it stays, and a PathErr without Path_State_Removed goes back. Another
/// Path, and a message of another kind, do nothing.
pub fn activate_change(
    alloc: Global,
    tables: &NodeTables,
    owner: &Owner,
    from: NodeId,
    msg: &Msg,
) -> Changed
    requires { ClaimsFit tables.now.legs owner.now }
    ensures { IfOk result (λ c. c ≡ activate_answer tables.now from msg.now) }
{
    match path_request(from, msg) {
        None => Ok(Change::nothing(alloc)),
        Some(path) => on_path(alloc, tables, owner, &path),
    }
}

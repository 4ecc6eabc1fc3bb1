//! A backup LSP that is asked for beside a call's working LSP (RFC 4872, section 8).

ghost use Rattle.std.specs.Prelude.{◌≡◌, ◌≤◌, IfOk, IsTrue, OnOk};
ghost use Rattle.ason_base.specs.{declared.limits.TheConstants.MOST_LABELS, declared.calls.Role.TheVariants.Back};
ghost use Rattle.mesh_rules.specs.{Changes.followed_by, Pairs.{is_two_way, leaves_bare, route_from}};
ghost use Rattle.mesh_nodes.specs.LocalNodes.{LocalNodeFits};
ghost use Rattle.leg_table.specs.{LegClaims.AreOfOneNode, States.local_of};
ghost use Rattle.call_control.specs.{PairRules.{IsFoundFor, IsPrimaryOf, pair_admitted_here, backup_begun_here, backup_over, pair_labelled_here, pair_over_here, pair_here}, Rules.{back_here, comes_back}, Searches.RowsAreKnown};

use crate::call_states::{pairing, unbacked};
use crate::first_legs::{NewLsp, ask_for, first_back};
use crate::first_links::{first_link, is_full};
use crate::{IngressParts, id_of};
use ason_base::codes::LABEL;
use ason_base::{
    CallRec, Cause, Copied, Label, Leg, LinkSpec, Lsp, OutOfMemory, PathRole, RiskFault, RiskSet,
    Role, Step, Steps,
};
use leg_table::{Calls, Change, NodeTables};
use mesh_rules::NextNumbers;
use mesh_rules::limits::LAST_NUMBER;
use share_check::Shares;
use std::alloc::Global;
use std::marker::Model;

/// The whole route of an LSP whose leg begins here.
pub fn route_from(alloc: Global, tables: &NodeTables, leg: &Leg) -> Result<Steps, OutOfMemory>
    ensures { IfOk result (λ r. r ≡ route_from (local_of tables.now) leg.now) }
{
    let mut route = Vec::new(alloc);
    if let Some(fibre) = leg.out_fibre {
        route.push(Step {
            node: id_of(tables),
            link: fibre.link,
        })?;
    }
    route.extend_from_slice(leg.route.items())?;
    Ok(Steps::from_vec(route))
}

/// A call whose working LSP stands, that LSP's leg here, and the backup route that was found, if
/// any.
#[derive(Drop)]
pub struct PairRequest<'a> {
    pub call: &'a CallRec,
    pub work: &'a Leg,
    pub found: Option<&'a Steps>,
}

impl<'a> Model for PairRequest<'a> {
    ghost use Rattle.std.specs.Option.{option_copied};
    ghost use Rattle.call_control.specs.Requests as requests;

    ghost Value = { requests.PairRequest };

    ghost view = { λ r. record {
      call = r.call.now;
      work = r.work.now;
      found = option_copied r.found;
    } };
}

/// The route of the working LSP, and its risks.
#[derive(Drop)]
struct Primary {
    route: Steps,
    risks: RiskSet,
}

/// Where a backup goes, over this link and then these steps, and its primary.
#[derive(Drop)]
struct BackupRoute<'a> {
    out: &'a LinkSpec,
    rest: Steps,
    primary: Primary,
}

impl<'a> Model for BackupRoute<'a> {
    ghost use Rattle.call_control.specs.Requests as requests;

    ghost Value = { requests.BackupRoute };

    ghost view = { λ r. record {
      out = r.out.now;
      rest = r.rest;
      primary = r.primary.route;
      risks = r.primary.risks;
    } };
}

/// The call stands without a backup, for this cause.
pub fn leave_bare(
    alloc: Global,
    change: &mut Change,
    call: &CallRec,
    cause: Cause,
) -> Result<(), OutOfMemory>
    ensures { OnOk result (change.new ≡ followed_by change.old (leaves_bare call.now cause)) }
{
    change.put_call(unbacked(alloc, call.copy(alloc)?, cause))
}

// The backup, in the tunnel of the working LSP. Its Path names that one and bears its route.
fn backup_lsp<'a>(
    calls: &Calls,
    work: &Leg,
    out: &'a LinkSpec,
    rest: Steps,
    primary: Steps,
    back: Option<Label>,
) -> NewLsp<'a>
    requires { calls.now.lsp ≤ LAST_NUMBER }
    ensures { result ≡ backup_over calls.now work.now out.now rest primary back }
{
    NewLsp {
        lsp: Lsp {
            ingress: work.lsp.ingress,
            tunnel: work.lsp.tunnel,
            lsp: calls.next_lsp() as u16,
        },
        egress: work.egress,
        out,
        route: rest,
        role: PathRole::Back {
            active: false,
            work: work.lsp.lsp,
            primary,
        },
        back,
    }
}

// A leg that begins here is two-way where it has a back label in.
fn is_two_way(leg: &Leg) -> bool
    ensures { result ≡ is_two_way leg.now }
{
    leg.back_in.is_some()
}

// The backup is asked for, with this label for its way back: an LSP number is left.
fn begin_backup(
    alloc: Global,
    change: &mut Change,
    parts: &IngressParts<'_>,
    request: &PairRequest<'_>,
    route: BackupRoute<'_>,
    back: Option<Label>,
) -> Result<(), OutOfMemory>
    requires narrow { route.out.labels ≤ MOST_LABELS }
    requires lsp { parts.now.calls.now.lsp ≤ LAST_NUMBER }
    requires rows { RowsAreKnown parts.now.tables.now }
    requires primary { IsPrimaryOf parts.now.tables.now request.now.work
        route.primary route.risks }
    requires back { back ≡ back_here parts.now.tables.now (is_two_way request.now.work) Back
        route.risks route.out }
    ensures { OnOk result (change.new ≡ followed_by change.old
        (backup_begun_here parts.now.tables.now parts.now.calls.now request.now route.entry)) }
{
    let calls = parts.calls;
    let BackupRoute { out, rest, primary } = route;
    let new = backup_lsp(calls, request.work, out, rest, primary.route, back);
    let lsp = new.lsp;
    ask_for(alloc, change, parts.tables, new, primary.risks)?;
    let call = request.call.copy(alloc)?;
    change.put_call(pairing(alloc, call, lsp))?;
    change.use_numbers(NextNumbers {
        tunnel: calls.next_tunnel(),
        lsp: calls.next_lsp() + 1,
    });
    Ok(())
}

// The backup of a two-way call is two-way: without a label for its way back there is none.
#[tactic(auto, using(crate::proofs::WayBack::guard_back))]
fn begin_labelled(
    alloc: Global,
    change: &mut Change,
    parts: &IngressParts<'_>,
    shares: &Shares,
    request: &PairRequest<'_>,
    route: BackupRoute<'_>,
) -> Result<(), OutOfMemory>
    requires node { AreOfOneNode parts.now.tables.now parts.now.owner.now shares.now }
    requires out { IsTrue (comes_back parts.now.tables.now route.out) }
    requires narrow { route.out.labels ≤ MOST_LABELS }
    requires lsp { parts.now.calls.now.lsp ≤ LAST_NUMBER }
    requires rows { RowsAreKnown parts.now.tables.now }
    requires primary { IsPrimaryOf parts.now.tables.now request.now.work
        route.primary route.risks }
    ensures { OnOk result (change.new ≡ followed_by change.old
        (pair_labelled_here parts.now.tables.now parts.now.calls.now request.now route.entry)) }
{
    let both = is_two_way(request.work);
    let back = first_back(
        parts,
        shares,
        both,
        Role::Back,
        &route.primary.risks,
        route.out,
    );
    if both && back.is_none() {
        leave_bare(alloc, change, request.call, Cause::Code(LABEL))
    } else {
        begin_backup(alloc, change, parts, request, route, back)
    }
}

fn admit_backup(
    alloc: Global,
    change: &mut Change,
    parts: &IngressParts<'_>,
    shares: &Shares,
    request: &PairRequest<'_>,
    route: BackupRoute<'_>,
) -> Result<(), OutOfMemory>
    requires node { AreOfOneNode parts.now.tables.now parts.now.owner.now shares.now }
    requires out { IsTrue (comes_back parts.now.tables.now route.out) }
    requires narrow { route.out.labels ≤ MOST_LABELS }
    requires rows { RowsAreKnown parts.now.tables.now }
    requires primary { IsPrimaryOf parts.now.tables.now request.now.work
        route.primary route.risks }
    ensures { OnOk result (change.new ≡ followed_by change.old
        (pair_admitted_here parts.now.tables.now parts.now.calls.now request.now route.entry)) }
{
    if parts.calls.next_lsp() > LAST_NUMBER {
        leave_bare(alloc, change, request.call, Cause::Spent)
    } else if is_full(parts.tables) {
        leave_bare(alloc, change, request.call, Cause::Full)
    } else {
        begin_labelled(alloc, change, parts, shares, request, route)
    }
}

// The backup over this route, if it may be followed from here.
fn pair_over(
    alloc: Global,
    change: &mut Change,
    parts: &IngressParts<'_>,
    shares: &Shares,
    request: &PairRequest<'_>,
    primary: Primary,
) -> Result<(), OutOfMemory>
    requires links { LocalNodeFits (local_of parts.now.tables.now) }
    requires node { AreOfOneNode parts.now.tables.now parts.now.owner.now shares.now }
    requires rows { RowsAreKnown parts.now.tables.now }
    requires primary { IsPrimaryOf parts.now.tables.now request.now.work
        primary.route primary.risks }
    ensures { OnOk result (change.new ≡ followed_by change.old
        (pair_over_here parts.now.tables.now parts.now.calls.now request.now)) }
{
    let Some(route) = request.call.backup.as_ref().or(request.found) else {
        return leave_bare(alloc, change, request.call, Cause::NoBackup);
    };
    let Some(out) = first_link(parts.tables, route) else {
        return leave_bare(alloc, change, request.call, Cause::NoBackup);
    };
    let rest = route.copy_from(alloc, 1)?;
    let route = BackupRoute { out, rest, primary };
    admit_backup(alloc, change, parts, shares, request, route)
}

/// A backup is asked for beside the call's working LSP, over the route that was given, else over
/// the least one that was found, and two-way where the call is; or the call stands without one.
/// None is asked for where a link of the working route isn't known.
pub fn pair(
    alloc: Global,
    change: &mut Change,
    parts: &IngressParts<'_>,
    shares: &Shares,
    request: &PairRequest<'_>,
) -> Result<(), OutOfMemory>
    requires links { LocalNodeFits (local_of parts.now.tables.now) }
    requires node { AreOfOneNode parts.now.tables.now parts.now.owner.now shares.now }
    requires rows { RowsAreKnown parts.now.tables.now }
    requires found { IsFoundFor parts.now.tables.now request.now }
    ensures { OnOk result (change.new ≡ followed_by change.old
        (pair_here parts.now.tables.now parts.now.calls.now request.now)) }
{
    let tables = parts.tables;
    let route = route_from(alloc, tables, request.work)?;
    match RiskSet::of(alloc, tables.rows(), &route) {
        Ok(risks) => {
            let primary = Primary { route, risks };
            pair_over(alloc, change, parts, shares, request, primary)
        }
        Err(RiskFault::Unknown(_)) => leave_bare(alloc, change, request.call, Cause::NoBackup),
        Err(RiskFault::OutOfMemory) => Err(OutOfMemory),
    }
}

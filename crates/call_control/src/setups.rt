//! A setup at its ingress (ITU-T G.8080, call control).

ghost use Rattle.std.specs.{Prelude.{◌≡◌, ◌≤◌, [], IfOk, IsTrue, true}, Option.option_copied};
ghost use Rattle.ason_base.specs.{declared.limits.TheConstants.MOST_LABELS, declared.calls.Role.TheVariants.Work};
ghost use Rattle.mesh_rules.specs.Setups.{call_record, is_followable, is_order_here, is_spent, refused_setup};
ghost use Rattle.mesh_nodes.specs.LocalNodes.{LocalNodeFits};
ghost use Rattle.leg_table.specs.{LegClaims.AreOfOneNode, States.{local_of, state_of}};
ghost use Rattle.call_control.specs.{Rules.{admitted_here, back_here, begun_here, comes_back, labelled_here, over_here, request_of, searched_here, setup_here}, Searches.{IsRouteFor, RowsAreKnown, found_route, seeks_route}};

use crate::first_legs::{NewLsp, ask_for, first_back};
use crate::first_links::{first_link, is_full};
use crate::{IngressParts, id_of};
use ason_base::codes::LABEL;
use ason_base::{
    CallNo, CallRec, CallState, Cause, Command, Copied, Fibres, Label, LinkSpec, Lsp, NodeId,
    OutOfMemory, PathRole, RiskSet, Role, Steps,
};
use leg_table::changes::Changed;
use leg_table::{Calls, Change, NodeTables};
use mesh_rules::NextNumbers;
use mesh_rules::limits::LAST_NUMBER;
use share_check::Shares;
use std::alloc::Global;
use std::marker::Model;

/// What a setup asks for.
#[derive(Drop)]
pub struct SetupRequest<'a> {
    pub call: CallNo,
    pub from: NodeId,
    pub egress: NodeId,
    pub protected: bool,
    pub both: bool,
    /// The working route that was given.
    pub via: &'a Option<Steps>,
    /// The backup route that was given.
    pub backup: &'a Option<Steps>,
}

impl<'a> Model for SetupRequest<'a> {
    ghost use Rattle.mesh_rules.specs.Setups as setups;

    ghost Value = { setups.SetupRequest };

    ghost view = { λ r. record {
      call = r.call;
      from = r.from;
      egress = r.egress;
      protected = r.protected;
      both = r.both;
      via = r.via.now;
      backup = r.backup.now;
    } };
}

impl<'a> SetupRequest<'a> {
    /// What the command asks for, if it is a setup.
    pub fn of(command: &'a Command) -> Option<SetupRequest<'a>>
        ensures { result ≡ request_of command.now }
    {
        match command {
            Command::Setup {
                call,
                from,
                to,
                protected,
                both,
                via,
                backup,
            } => Some(SetupRequest {
                call: *call,
                from: *from,
                egress: *to,
                protected: *protected,
                both: *both,
                via,
                backup,
            }),
            Command::Release { .. }
            | Command::Protect { .. }
            | Command::Retry { .. }
            | Command::Revert { .. }
            | Command::Fail { .. }
            | Command::Repair { .. } => None,
        }
    }
}

fn call_record(
    alloc: Global,
    request: &SetupRequest<'_>,
    state: CallState,
    work: Option<Lsp>,
    cause: Cause,
) -> Result<CallRec, OutOfMemory>
    ensures { IfOk result (λ c. c ≡ call_record request.now state work cause) }
{
    let backup = request.backup.copy(alloc)?;
    Ok(CallRec {
        call: request.call,
        egress: request.egress,
        protected: request.protected,
        backup,
        state,
        work,
        back: None,
        work_reports: Fibres::new(alloc),
        back_reports: Fibres::new(alloc),
        cause,
        ticks: 0,
    })
}

fn refuse_setup(alloc: Global, request: &SetupRequest<'_>, cause: Cause) -> Changed
    ensures { IfOk result (λ c. c ≡ refused_setup request.now cause) }
{
    let mut change = Change::nothing(alloc);
    change.put_call(call_record(alloc, request, CallState::Blocked, None, cause)?)?;
    Ok(change)
}

// The LSP begins, with this label for its way back: a tunnel and an LSP number are left.
#[tactic(auto, using(crate::proofs::WayBack::work_back))]
fn begin(
    alloc: Global,
    parts: &IngressParts<'_>,
    request: &SetupRequest<'_>,
    out: &LinkSpec,
    route: Steps,
    back: Option<Label>,
) -> Changed
    requires narrow { out.now.labels ≤ MOST_LABELS }
    requires tunnel { parts.now.calls.now.tunnel ≤ LAST_NUMBER }
    requires lsp { parts.now.calls.now.lsp ≤ LAST_NUMBER }
    requires back { back ≡ back_here parts.now.tables.now request.now.both Work [] out.now }
    ensures { IfOk result (λ c. c ≡ begun_here parts.now.tables.now parts.now.calls.now
        request.now out.now route) }
{
    let next = NextNumbers {
        tunnel: parts.calls.next_tunnel(),
        lsp: parts.calls.next_lsp(),
    };
    let lsp = Lsp {
        ingress: id_of(parts.tables),
        tunnel: next.tunnel as u16,
        lsp: next.lsp as u16,
    };
    let new = NewLsp {
        lsp,
        egress: request.egress,
        out,
        route,
        role: PathRole::Work {
            guard: request.protected,
        },
        back,
    };
    let mut change = Change::nothing(alloc);
    ask_for(alloc, &mut change, parts.tables, new, RiskSet::new(alloc))?;
    let call = call_record(alloc, request, CallState::Asking, Some(lsp), Cause::Unset)?;
    change.put_call(call)?;
    change.use_numbers(NextNumbers {
        tunnel: next.tunnel + 1,
        lsp: next.lsp + 1,
    });
    Ok(change)
}

fn is_spent(tables: &NodeTables, calls: &Calls) -> bool
    ensures { result ≡ is_spent (state_of tables.now calls.now) }
{
    let _tables = tables;
    calls.next_lsp() > LAST_NUMBER || calls.next_tunnel() > LAST_NUMBER
}

// A two-way call without a label for its way back is refused.
#[tactic(auto, using(crate::proofs::WayBack::work_back))]
fn begin_labelled(
    alloc: Global,
    parts: &IngressParts<'_>,
    shares: &Shares,
    request: &SetupRequest<'_>,
    out: &LinkSpec,
    route: Steps,
) -> Changed
    requires node { AreOfOneNode parts.now.tables.now parts.now.owner.now shares.now }
    requires out { IsTrue (comes_back parts.now.tables.now out.now) }
    requires narrow { out.now.labels ≤ MOST_LABELS }
    requires tunnel { parts.now.calls.now.tunnel ≤ LAST_NUMBER }
    requires lsp { parts.now.calls.now.lsp ≤ LAST_NUMBER }
    ensures { IfOk result (λ c. c ≡ labelled_here parts.now.tables.now parts.now.calls.now
        request.now out.now route) }
{
    let risks = RiskSet::new(alloc);
    let back = first_back(parts, shares, request.both, Role::Work, &risks, out);
    if request.both && back.is_none() {
        refuse_setup(alloc, request, Cause::Code(LABEL))
    } else {
        begin(alloc, parts, request, out, route, back)
    }
}

fn admit(
    alloc: Global,
    parts: &IngressParts<'_>,
    shares: &Shares,
    request: &SetupRequest<'_>,
    out: &LinkSpec,
    route: Steps,
) -> Changed
    requires node { AreOfOneNode parts.now.tables.now parts.now.owner.now shares.now }
    requires out { IsTrue (comes_back parts.now.tables.now out.now) }
    requires narrow { out.now.labels ≤ MOST_LABELS }
    ensures { IfOk result (λ c. c ≡ admitted_here parts.now.tables.now parts.now.calls.now
        request.now out.now route) }
{
    if is_spent(parts.tables, parts.calls) {
        refuse_setup(alloc, request, Cause::Spent)
    } else if is_full(parts.tables) {
        refuse_setup(alloc, request, Cause::Full)
    } else {
        begin_labelled(alloc, parts, shares, request, out, route)
    }
}

fn is_followable(tables: &NodeTables, route: &Option<Steps>) -> bool
    requires { LocalNodeFits (local_of tables.now) }
    ensures { result ≡ is_followable (local_of tables.now) route.now }
{
    match route {
        None => true,
        Some(route) => first_link(tables, route).is_some(),
    }
}

fn is_order_here(tables: &NodeTables, request: &SetupRequest<'_>) -> bool
    requires { LocalNodeFits (local_of tables.now) }
    ensures { result ≡ is_order_here (local_of tables.now) request.now }
{
    request.from == id_of(tables)
        && request.egress != id_of(tables)
        && is_followable(tables, request.backup)
}

// The call over this route, if it may be followed from here.
fn call_over(
    alloc: Global,
    parts: &IngressParts<'_>,
    shares: &Shares,
    request: &SetupRequest<'_>,
    route: &Steps,
) -> Changed
    requires links { LocalNodeFits (local_of parts.now.tables.now) }
    requires node { AreOfOneNode parts.now.tables.now parts.now.owner.now shares.now }
    ensures { IfOk result (λ c. c ≡ over_here parts.now.tables.now parts.now.calls.now
        request.now route.now) }
{
    match first_link(parts.tables, route) {
        None => Ok(Change::nothing(alloc)),
        Some(out) => {
            let rest = route.copy_from(alloc, 1)?;
            admit(alloc, parts, shares, request, out, rest)
        }
    }
}

// The call over the least route, or refused where there is none.
#[tactic(auto, using(crate::proofs::Searched::found_over, crate::proofs::Searched::none_found))]
fn call_searched(
    alloc: Global,
    parts: &IngressParts<'_>,
    shares: &Shares,
    request: &SetupRequest<'_>,
    route: Option<&Steps>,
) -> Changed
    requires links { LocalNodeFits (local_of parts.now.tables.now) }
    requires node { AreOfOneNode parts.now.tables.now parts.now.owner.now shares.now }
    requires rows { RowsAreKnown parts.now.tables.now }
    requires route { option_copied route
        ≡ found_route parts.now.tables.now request.now.egress }
    ensures { IfOk result (λ c. c ≡ searched_here parts.now.tables.now parts.now.calls.now
        request.now) }
{
    match route {
        None => refuse_setup(alloc, request, Cause::NoRoute),
        Some(route) => call_over(alloc, parts, shares, request, route),
    }
}

/// Whether the setup makes a call here that is given no route: then the least route is to be
/// handed in.
pub fn seeks_route(tables: &NodeTables, calls: &Calls, request: &SetupRequest<'_>) -> bool
    requires { LocalNodeFits (local_of tables.now) }
    ensures { result ≡ seeks_route tables.now calls.now request.now }
{
    calls.get(request.call).is_none() && is_order_here(tables, request) && request.via.is_none()
}

/// What a setup does: an LSP is asked for, two-way where the setup says so, or the call is refused.
/// The route is the least one where one is sought.
pub fn set_up(
    alloc: Global,
    parts: &IngressParts<'_>,
    shares: &Shares,
    request: &SetupRequest<'_>,
    route: Option<&Steps>,
) -> Changed
    requires links { LocalNodeFits (local_of parts.now.tables.now) }
    requires node { AreOfOneNode parts.now.tables.now parts.now.owner.now shares.now }
    requires rows { RowsAreKnown parts.now.tables.now }
    requires route { IsRouteFor parts.now.tables.now parts.now.calls.now request.now
        (option_copied route) }
    ensures { IfOk result
        (λ c. c ≡ setup_here parts.now.tables.now parts.now.calls.now request.now) }
{
    if parts.calls.get(request.call).is_some() || !is_order_here(parts.tables, request) {
        return Ok(Change::nothing(alloc));
    }
    match request.via {
        None => call_searched(alloc, parts, shares, request, route),
        Some(given) => call_over(alloc, parts, shares, request, given),
    }
}

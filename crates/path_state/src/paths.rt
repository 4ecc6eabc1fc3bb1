//! A Path where no leg of its LSP stands (RFC 2205, section 3.1.3; RFC 3473, section 2).

ghost use Rattle.std.specs.{Prelude.{◌≡◌, ◌≤◌, false, IfErr, IfOk, IsTrue, OnOk}, Option.option_copied};
ghost use Rattle.ason_base.specs.declared.limits.TheConstants.{MOST_LABELS};
ghost use Rattle.mesh_rules.specs.Paths.{leads_on, link_on, recorded, role_of, set_on};
ghost use Rattle.mesh_nodes.specs.LocalNodes.{LocalNodeFits};
ghost use Rattle.leg_table.specs.{Fits.TablesFit, States.local_of};
ghost use Rattle.path_state.specs.Answers.{IsUnknownFor, path_asked_here, path_back_here, back_over, path_comes_back, comes_over, ended_here, is_down_here, is_unknown_here, judged_here, known_here, path_labelled_here, lacks_way_back, offered_here, path_passed_here, path_answer, path_here, path_on, recorded_here, path_refused_here};

use ason_base::codes::{DOWN, FULL, LABEL, PRIMARY, ROUTE, SET};
use ason_base::routes::other_end;
use ason_base::{
    Copied, ErrCode, Label, LabelSet, Leg, LinkId, LinkSpec, Msg, NodeId, OutOfMemory, PathRole,
    Phase, RiskFault, RiskSet, Role, Step, Steps,
};
use leg_labels::{label_through, usable};
use leg_table::changes::Changed;
use leg_table::one_leg::reserved;
use leg_table::{Change, NodeTables};
use link_owner::Owner;
use mesh_rules::limits::MOST_LEGS;
use mesh_rules::links::{fibre_in, fibre_out, leads, reverse};
use mesh_rules::readings::path_request;
use mesh_rules::roles::is_active;
use mesh_rules::{Arrival, PathRequest};
use share_check::Shares;
use std::alloc::Global;

// Refusals

fn leads_on(tables: &NodeTables, arrival: Arrival, route: &Steps) -> bool
    ensures { result ≡ leads_on (local_of tables.now) arrival route.now }
{
    let here = tables.node().id;
    match route.items().first() {
        None => here == arrival.egress,
        Some(&hop) => {
            here != arrival.egress
                && hop.node == here
                && hop.link != arrival.link
                && tables.own(hop.link).is_some()
        }
    }
}

// The risks of the primary of a backup, as the node knows them; a working LSP has no primary.
fn recorded(alloc: Global, tables: &NodeTables, role: &PathRole) -> Result<RiskSet, RiskFault>
    requires { tables.now.rows ≡ known_here tables.now }
    ensures ok { IfOk result (λ r. r ≡ recorded (known_here tables.now) role.now) }
    ensures known { OnOk result (is_unknown_here tables.now role.now ≡ false) }
    ensures unknown { IfErr result (IsUnknownFor tables.now role.now) }
{
    match role {
        PathRole::Work { .. } => Ok(RiskSet::new(alloc)),
        PathRole::Back { primary, .. } => RiskSet::of(alloc, tables.rows(), primary),
    }
}

fn role_of(role: &PathRole) -> Role
    ensures { result ≡ role_of role.now }
{
    match role {
        PathRole::Work { .. } => Role::Work,
        PathRole::Back { .. } => Role::Back,
    }
}

// The owner and the shares tell which labels are usable for such a leg.
fn offered_labels(
    tables: &NodeTables,
    owner: &Owner,
    shares: &Shares,
    request: &PathRequest<'_>,
    link: &LinkSpec,
    risks: &RiskSet,
) -> LabelSet
    requires fits { TablesFit tables.now owner.now shares.now }
    requires link { IsTrue (comes_over tables.now link.now) }
    requires risks { risks.now ≡ recorded_here tables.now request.now }
    ensures { result ≡ offered_here tables.now request.now link.now }
{
    let fibre = fibre_in(link, tables.node().id);
    let role = role_of(request.role);
    let labels = usable(tables, owner, shares, role, risks, fibre);
    request.set.meet(&labels)
}

// The label for the way back over this link, by which the Path goes on.
fn back_over(
    tables: &NodeTables,
    owner: &Owner,
    shares: &Shares,
    request: &PathRequest<'_>,
    out: &LinkSpec,
    risks: &RiskSet,
) -> Option<Label>
    requires fits { TablesFit tables.now owner.now shares.now }
    requires link { IsTrue (path_comes_back tables.now out.now) }
    requires risks { risks.now ≡ recorded_here tables.now request.now }
    ensures { result ≡ back_over tables.now request.now out.now }
{
    let label = request.upstream?;
    let fibre = reverse(fibre_out(out, tables.node().id));
    let labels = usable(tables, owner, shares, role_of(request.role), risks, fibre);
    label_through(tables, &labels, label)
}

// The link of the route's first step.
fn link_on<'a>(tables: &'a NodeTables, route: &Steps) -> Option<&'a LinkSpec>
    ensures { option_copied result ≡ link_on (local_of tables.now) route.now }
{
    match route.items().first() {
        None => None,
        Some(&hop) => tables.own(hop.link),
    }
}

// The label for the way back, as far as the Path goes on from here and asks for one.
fn back_label(
    tables: &NodeTables,
    owner: &Owner,
    shares: &Shares,
    request: &PathRequest<'_>,
    risks: &RiskSet,
) -> Option<Label>
    requires fits { TablesFit tables.now owner.now shares.now }
    requires risks { risks.now ≡ recorded_here tables.now request.now }
    ensures { result ≡ path_back_here tables.now request.now }
{
    match link_on(tables, request.route) {
        None => None,
        Some(out) => back_over(tables, owner, shares, request, out, risks),
    }
}

// Whether the fibre of this link that comes in is known to be down.
fn is_down(tables: &NodeTables, link: &LinkSpec) -> bool
    ensures { result ≡ is_down_here tables.now link.now }
{
    tables.is_down(fibre_in(link, tables.node().id))
}

fn refuse(alloc: Global, tables: &NodeTables, arrival: Arrival, code: ErrCode) -> Changed
    ensures { IfOk result (λ c. c ≡ path_refused_here tables.now arrival code) }
{
    let msg = Msg::PathErr {
        lsp: arrival.lsp,
        egress: arrival.egress,
        at: tables.node().id,
        removed: true,
        code,
    };
    Change::sends(alloc, arrival.from, msg)
}

// Legs

// What a leg that this Path makes, which came by this link, may have: the labels of the fibre in
// from which one is taken, the label for the way back, and the risks that it records.
#[derive(Drop)]
struct Offer<'a> {
    request: &'a PathRequest<'a>,
    link: &'a LinkSpec,
    risks: RiskSet,
    labels: LabelSet,
    back: Option<Label>,
}

// The leg that a Path makes, as far as it is the same at each node.
fn asked_leg(
    alloc: Global,
    tables: &NodeTables,
    request: &PathRequest<'_>,
    link: &LinkSpec,
    risks: RiskSet,
    labels: LabelSet,
) -> Result<Leg, OutOfMemory>
    ensures { IfOk result (λ g. g ≡ path_asked_here tables.now request.now link.now risks labels) }
{
    let path_role = request.role.copy(alloc)?;
    Ok(Leg {
        lsp: request.arrival.lsp,
        egress: request.arrival.egress,
        role: role_of(request.role),
        prev: Some(request.arrival.from),
        next: None,
        in_fibre: Some(fibre_in(link, tables.node().id)),
        out_fibre: None,
        offered: labels,
        sent: LabelSet::empty(),
        route: Steps::new(alloc),
        path_role,
        risks,
        phase: Phase::Asked,
        in_label: None,
        out_label: None,
        back_in: None,
        back_out: request.upstream,
    })
}

// At the egress the leg has its label at once.
fn end_here(alloc: Global, tables: &NodeTables, offer: Offer<'_>) -> Changed
    ensures { IfOk result (λ c. c ≡ ended_here tables.now offer.entry.request.now
        offer.entry.link.now offer.entry.risks offer.entry.labels) }
{
    let Offer {
        request,
        link,
        risks,
        labels,
        ..
    } = offer;
    let Some(label) = labels.least() else {
        return Ok(Change::nothing(alloc));
    };
    let mut leg = asked_leg(alloc, tables, request, link, risks, labels)?;
    leg.phase = reserved(leg.role);
    leg.in_label = Some(label);
    let msg = Msg::Resv {
        lsp: request.arrival.lsp,
        egress: request.arrival.egress,
        link: link.id,
        label,
    };
    Change::puts(alloc, leg, request.arrival.from, msg)
}

fn set_on(tables: &NodeTables, out: &LinkSpec, offered: &LabelSet) -> LabelSet
    requires { out.now.labels ≤ MOST_LABELS }
    ensures { result ≡ set_on (local_of tables.now) out.now offered.now }
{
    if tables.node().convert {
        LabelSet::upto(out.labels)
    } else {
        offered.copy()
    }
}

// The Path that goes on over this link from the leg.
fn path_on(
    alloc: Global,
    request: &PathRequest<'_>,
    link: LinkId,
    leg: &Leg,
) -> Result<Msg, OutOfMemory>
    ensures { IfOk result (λ m. m ≡ path_on request.now link leg.now) }
{
    Ok(Msg::Path {
        lsp: request.arrival.lsp,
        egress: request.arrival.egress,
        link,
        route: leg.route.copy(alloc)?,
        set: leg.sent.copy(),
        upstream: leg.back_in,
        role: request.role.copy(alloc)?,
    })
}

// The Path goes on over this step.
fn pass_on(alloc: Global, tables: &NodeTables, hop: Step, offer: Offer<'_>) -> Changed
    requires { LocalNodeFits (local_of tables.now) }
    ensures { IfOk result (λ c. c ≡ path_passed_here tables.now offer.entry.request.now
        offer.entry.link.now offer.entry.risks offer.entry.labels offer.entry.back hop.link) }
{
    let here = tables.node().id;
    let Some(out) = tables.own(hop.link) else {
        return Ok(Change::nothing(alloc));
    };
    let Offer {
        request,
        link,
        risks,
        labels,
        back,
    } = offer;
    let sent = set_on(tables, out, &labels);
    let mut leg = asked_leg(alloc, tables, request, link, risks, labels)?;
    leg.next = Some(other_end(out, here));
    leg.out_fibre = Some(fibre_out(out, here));
    leg.back_in = back;
    leg.sent = sent;
    leg.route = request.route.copy_from(alloc, 1)?;
    let msg = path_on(alloc, request, out.id, &leg)?;
    Change::puts(alloc, leg, other_end(out, here), msg)
}

// Whether the Path goes on from here and asks for a way back, and there is no label for it.
fn lacks_back(tables: &NodeTables, request: &PathRequest<'_>, back: Option<Label>) -> bool
    ensures { result ≡ lacks_way_back tables.now request.now back }
{
    match link_on(tables, request.route) {
        None => false,
        Some(_) => request.upstream.is_some() && back.is_none(),
    }
}

// Where no label is left, there or for the way back, the Path is refused.
fn admit_labelled(alloc: Global, tables: &NodeTables, offer: Offer<'_>) -> Changed
    requires { LocalNodeFits (local_of tables.now) }
    ensures { IfOk result (λ c. c ≡ path_labelled_here tables.now offer.entry.request.now
        offer.entry.link.now offer.entry.risks offer.entry.labels offer.entry.back) }
{
    let request = offer.request;
    if offer.labels.least().is_none() {
        return refuse(alloc, tables, request.arrival, SET);
    }
    if lacks_back(tables, request, offer.back) {
        return refuse(alloc, tables, request.arrival, LABEL);
    }
    match request.route.items().first() {
        None => end_here(alloc, tables, offer),
        Some(&hop) => pass_on(alloc, tables, hop, offer),
    }
}

// The first check that fails refuses the Path.
fn judge(
    alloc: Global,
    tables: &NodeTables,
    owner: &Owner,
    shares: &Shares,
    request: &PathRequest<'_>,
    link: &LinkSpec,
) -> Changed
    requires fits { TablesFit tables.now owner.now shares.now }
    requires link { IsTrue (comes_over tables.now link.now) }
    ensures { IfOk result (λ c. c ≡ judged_here tables.now request.now link.now) }
{
    if tables.count() >= MOST_LEGS {
        return refuse(alloc, tables, request.arrival, FULL);
    }
    if !leads_on(tables, request.arrival, request.route) {
        return refuse(alloc, tables, request.arrival, ROUTE);
    }
    match recorded(alloc, tables, request.role) {
        Ok(_) if is_down(tables, link) => refuse(alloc, tables, request.arrival, DOWN),
        Ok(risks) => {
            let labels = offered_labels(tables, owner, shares, request, link, &risks);
            let back = back_label(tables, owner, shares, request, &risks);
            let offer = Offer {
                request,
                link,
                risks,
                labels,
                back,
            };
            admit_labelled(alloc, tables, offer)
        }
        Err(RiskFault::Unknown(_)) => refuse(alloc, tables, request.arrival, PRIMARY),
        Err(RiskFault::OutOfMemory) => Err(OutOfMemory),
    }
}

// A Path makes a leg where none of its LSP stands.
fn on_path(
    alloc: Global,
    tables: &NodeTables,
    owner: &Owner,
    shares: &Shares,
    request: &PathRequest<'_>,
) -> Changed
    requires { TablesFit tables.now owner.now shares.now }
    ensures { IfOk result (λ c. c ≡ path_here tables.now request.now) }
{
    let arrival = request.arrival;
    let here = tables.node().id;
    let None = tables.get(&arrival.lsp) else {
        return Ok(Change::nothing(alloc));
    };
    let Some(link) = tables.own(arrival.link) else {
        return Ok(Change::nothing(alloc));
    };
    if !is_active(request.role) && leads(link, arrival.from, here) && arrival.lsp.ingress != here {
        judge(alloc, tables, owner, shares, request, link)
    } else {
        Ok(Change::nothing(alloc))
    }
}

/// What a Path of an LSP that has no leg here would change and send: it makes a leg and goes on,
/// ends here and is answered, or is refused. A Path of an LSP that has one, and a message of
/// another kind, do nothing.
pub fn path_change(
    alloc: Global,
    tables: &NodeTables,
    owner: &Owner,
    shares: &Shares,
    from: NodeId,
    msg: &Msg,
) -> Changed
    requires { TablesFit tables.now owner.now shares.now }
    ensures { IfOk result (λ c. c ≡ path_answer tables.now from msg.now) }
{
    match path_request(from, msg) {
        None => Ok(Change::nothing(alloc)),
        Some(request) => on_path(alloc, tables, owner, shares, &request),
    }
}

//! A Resv (RFC 2205, section 3.1.4; RFC 3473, section 2).

ghost use Rattle.std.specs.Prelude.{◌≡◌, [], IfOk, IsTrue, None, Some};
ghost use Rattle.mesh_rules.specs.{Changes.puts, Legs.{connected, find_leg}, Resvs.{is_expected, label_passed, torn_both_ways}};
ghost use Rattle.leg_table.specs.{Fits.TablesFit, LegClaims.is_fibre_in, States.local_of};
ghost use Rattle.resv_state.specs.Answers.{resv_answered_here, connects, connects_by, left_here, resv_answer, resv_by};

use ason_base::codes::LABEL;
use ason_base::{Label, LabelSet, Leg, Msg, NodeId};
use leg_labels::{label_through, usable};
use leg_table::changes::Changed;
use leg_table::one_leg::{
    begins_here, closed, connected, following, is_asked, is_over, path_err, previous,
};
use leg_table::{Change, NodeTables};
use link_owner::Owner;
use mesh_rules::readings::given_label;
use mesh_rules::{Arrival, GivenLabel, Neighbour};
use share_check::Shares;
use std::alloc::Global;

fn expects(leg: &Leg, given: GivenLabel) -> bool
    ensures { result ≡ is_expected given.arrival given.label leg.now }
{
    let arrival = given.arrival;
    is_asked(leg.phase)
        && is_over(following(leg), arrival.from, arrival.link)
        && leg.sent.has(given.label)
}

// No label is left: the LSP is torn towards the egress, and the ingress is told.
fn tear_both_ways(
    alloc: Global,
    tables: &NodeTables,
    arrival: Arrival,
    leg: &Leg,
    back: Neighbour,
) -> Changed
    ensures { IfOk result (λ c. c ≡ torn_both_ways (local_of tables.now) arrival leg.now back) }
{
    let (lsp, egress) = (leg.lsp, leg.egress);
    let link = arrival.link;
    let tear = Msg::PathTear { lsp, egress, link };
    let err = path_err(leg, tables.node().id, true, LABEL);
    let mut change = Change::puts(alloc, closed(alloc, leg)?, arrival.from, tear)?;
    change.send(back.node, err)?;
    Ok(change)
}

fn pass_label(alloc: Global, leg: &Leg, back: Neighbour, label: Label, chosen: Label) -> Changed
    ensures { IfOk result (λ c. c ≡ label_passed leg.now back label chosen) }
{
    let labelled = connected(alloc, leg, Some(chosen), label)?;
    let msg = Msg::Resv {
        lsp: leg.lsp,
        egress: leg.egress,
        link: back.fibre.link,
        label: chosen,
    };
    Change::puts(alloc, labelled, back.node, msg)
}

// The labels that may go back: those that were offered and are usable now, as the owner and the
// shares tell.
fn labels_left(
    tables: &NodeTables,
    owner: &Owner,
    shares: &Shares,
    leg: &Leg,
    back: Neighbour,
) -> LabelSet
    requires fits { TablesFit tables.now owner.now shares.now }
    requires comes_in { IsTrue (is_fibre_in (local_of tables.now) back.fibre) }
    ensures { result ≡ left_here tables.now leg.now back }
{
    let labels = usable(tables, owner, shares, leg.role, &leg.risks, back.fibre);
    leg.offered.meet(&labels)
}

// At the ingress the leg has its label, and nothing is sent.
fn connect_here(alloc: Global, leg: &Leg, label: Label) -> Changed
    ensures { IfOk result (λ c. c ≡ puts (connected leg.now None label) []) }
{
    let mut change = Change::nothing(alloc);
    change.put(connected(alloc, leg, None, label)?)?;
    Ok(change)
}

fn answer(
    alloc: Global,
    tables: &NodeTables,
    owner: &Owner,
    shares: &Shares,
    given: GivenLabel,
    leg: &Leg,
) -> Changed
    requires fits { TablesFit tables.now owner.now shares.now }
    requires stands { find_leg given.arrival.lsp tables.now.legs ≡ Some leg.now }
    ensures { IfOk result
        (λ c. c ≡ resv_answered_here tables.now given.arrival given.label leg.now) }
{
    let GivenLabel { arrival, label } = given;
    let Some(back) = previous(leg) else {
        return connect_here(alloc, leg, label);
    };
    let labels = labels_left(tables, owner, shares, leg, back);
    match label_through(tables, &labels, label) {
        None => tear_both_ways(alloc, tables, arrival, leg, back),
        Some(chosen) => pass_label(alloc, leg, back, label, chosen),
    }
}

fn on_resv(
    alloc: Global,
    tables: &NodeTables,
    owner: &Owner,
    shares: &Shares,
    given: GivenLabel,
) -> Changed
    requires { TablesFit tables.now owner.now shares.now }
    ensures { IfOk result (λ c. c ≡ resv_by tables.now given) }
{
    match tables.get(&given.arrival.lsp) {
        Some(leg) if expects(leg, given) => answer(alloc, tables, owner, shares, given, leg),
        _ => Ok(Change::nothing(alloc)),
    }
}

fn connects_leg(tables: &NodeTables, given: GivenLabel) -> bool
    ensures { result ≡ connects_by tables.now given }
{
    match tables.get(&given.arrival.lsp) {
        None => false,
        Some(leg) => expects(leg, given) && begins_here(leg),
    }
}

/// Whether the message is a Resv by which the leg of an LSP that begins here gets its label: its
/// call follows.
pub fn connects(tables: &NodeTables, from: NodeId, msg: &Msg) -> bool
    ensures { result ≡ connects tables.now from msg.now }
{
    match given_label(from, msg) {
        None => false,
        Some(given) => connects_leg(tables, given),
    }
}

/// What a Resv would change and send: the leg that waits for it gets its labels, is cross-connected
/// where it is a working leg, and the Resv goes back; or the LSP is torn. A Resv that no Asked leg
/// takes, and a message of another kind, do nothing.
pub fn resv_change(
    alloc: Global,
    tables: &NodeTables,
    owner: &Owner,
    shares: &Shares,
    from: NodeId,
    msg: &Msg,
) -> Changed
    requires { TablesFit tables.now owner.now shares.now }
    ensures { IfOk result (λ c. c ≡ resv_answer tables.now from msg.now) }
{
    match given_label(from, msg) {
        None => Ok(Change::nothing(alloc)),
        Some(given) => on_resv(alloc, tables, owner, shares, given),
    }
}

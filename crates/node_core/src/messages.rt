//! The rule of each message from a neighbour: what becomes of the leg of its LSP, and at the ingress
//! what becomes of the call then.

ghost use Rattle.std.specs.Prelude.{◌≡◌, IfOk, None, OnOk, Some};
ghost use Rattle.ason_base.specs.declared.calls.Phase.TheVariants.{Held, Live};
ghost use Rattle.mesh_rules.specs.{Changes.followed_by, Legs.{connected, with_phase}};
ghost use Rattle.leg_table.specs.Fits.{TablesFit};
ghost use Rattle.call_control.specs.Rules.{answered_here, contended_here, turned_here};
ghost use Rattle.node_core.specs.{Followed.{activation_followed, busy_at, busy_followed, connection_followed, notice_followed, path_followed, removal_followed, resv_followed}, Rules.{CanSearch, message_here}};

use crate::routes::backup_beside;
use crate::rules::{NodeParts, ingress_of};
use activation::{
    activate_change, busy_change, carries, connect_change, contends, take_back_change,
};
use ason_base::{ErrCode, Label, Leg, Lsp, Msg, NodeId, OutOfMemory, PathRole, Phase};
use call_control::{
    answer_busy, answer_confirmed, answer_report, answer_resv, refuse_lsp, sought_by_resv,
};
use leg_table::Change;
use leg_table::changes::Changed;
use leg_table::one_leg::{connected, with_phase};
use mesh_rules::roles::is_active;
use notify::{pass_change, reports};
use path_state::{path_change, tear_change};
use resv_state::{connects, path_err_change, refuses, resv_change};
use std::alloc::Global;

// Paths

// A Path makes a leg where none of its LSP stands, and may activate the one that does, or take its
// activation back.
fn on_path(
    alloc: Global,
    parts: &NodeParts<'_>,
    from: NodeId,
    lsp: Lsp,
    role: &PathRole,
    msg: &Msg,
) -> Changed
    requires tables { TablesFit parts.now.tables.now parts.now.owner.now parts.now.shares.now }
    ensures { IfOk result
        (λ c. c ≡ path_followed parts.now.tables.now from lsp role.now msg.now) }
{
    match parts.tables.get(&lsp) {
        None => path_change(alloc, parts.tables, parts.owner, parts.shares, from, msg),
        Some(_) if is_active(role) => activate_change(alloc, parts.tables, parts.owner, from, msg),
        Some(_) => take_back_change(alloc, parts.tables, from, msg),
    }
}

// Resvs

// The call of this leg, which begins here and has its labels now.
fn follow_resv(
    alloc: Global,
    change: &mut Change,
    parts: &NodeParts<'_>,
    leg: &Leg,
) -> Result<(), OutOfMemory>
    requires tables { TablesFit parts.now.tables.now parts.now.owner.now parts.now.shares.now }
    requires rows { CanSearch parts.now.tables.now }
    ensures { OnOk result (change.new ≡ followed_by change.old
        (answered_here parts.now.tables.now parts.now.calls.now leg.now)) }
{
    let backup = backup_beside(alloc, parts.tables, sought_by_resv(parts.calls, leg))?;
    let ingress = ingress_of(parts);
    answer_resv(alloc, change, &ingress, parts.shares, leg, backup.as_ref())
}

// The call of this leg, which begins here and gets this label.
fn follow_connection(
    alloc: Global,
    change: &mut Change,
    parts: &NodeParts<'_>,
    leg: &Leg,
    label: Label,
) -> Result<(), OutOfMemory>
    requires tables { TablesFit parts.now.tables.now parts.now.owner.now parts.now.shares.now }
    requires rows { CanSearch parts.now.tables.now }
    ensures { OnOk result (change.new ≡ followed_by change.old
        (answered_here parts.now.tables.now parts.now.calls.now (connected leg.now None label))) }
{
    let leg = connected(alloc, leg, None, label)?;
    follow_resv(alloc, change, parts, &leg)
}

// A Resv at a leg that isn't Armed.
fn connect(
    alloc: Global,
    parts: &NodeParts<'_>,
    from: NodeId,
    leg: &Leg,
    label: Label,
    msg: &Msg,
) -> Changed
    requires tables { TablesFit parts.now.tables.now parts.now.owner.now parts.now.shares.now }
    requires rows { CanSearch parts.now.tables.now }
    ensures { IfOk result (λ c. c
        ≡ connection_followed parts.now.tables.now parts.now.calls.now from label msg.now leg.now) }
{
    let tables = parts.tables;
    let mut change = resv_change(alloc, tables, parts.owner, parts.shares, from, msg)?;
    if connects(tables, from, msg) {
        follow_connection(alloc, &mut change, parts, leg, label)?;
    }
    Ok(change)
}

// The call of this leg, which begins here and is Live now.
fn follow_confirmed(
    alloc: Global,
    change: &mut Change,
    parts: &NodeParts<'_>,
    leg: &Leg,
) -> Result<(), OutOfMemory>
    requires tables { TablesFit parts.now.tables.now parts.now.owner.now parts.now.shares.now }
    ensures { OnOk result (change.new ≡ followed_by change.old
        (turned_here parts.now.tables.now parts.now.calls.now (with_phase Live leg.now))) }
{
    let leg = with_phase(alloc, leg, Phase::Live)?;
    answer_confirmed(alloc, change, &ingress_of(parts), &leg)
}

// A Resv at a leg that is Armed.
fn confirm(alloc: Global, parts: &NodeParts<'_>, from: NodeId, leg: &Leg, msg: &Msg) -> Changed
    requires tables { TablesFit parts.now.tables.now parts.now.owner.now parts.now.shares.now }
    ensures { IfOk result (λ c. c
        ≡ activation_followed parts.now.tables.now parts.now.calls.now from msg.now leg.now) }
{
    let mut change = connect_change(alloc, parts.tables, from, msg)?;
    if carries(parts.tables, from, msg) {
        follow_confirmed(alloc, &mut change, parts, leg)?;
    }
    Ok(change)
}

fn on_resv(
    alloc: Global,
    parts: &NodeParts<'_>,
    from: NodeId,
    lsp: Lsp,
    label: Label,
    msg: &Msg,
) -> Changed
    requires tables { TablesFit parts.now.tables.now parts.now.owner.now parts.now.shares.now }
    requires rows { CanSearch parts.now.tables.now }
    ensures { IfOk result (λ c. c
        ≡ resv_followed parts.now.tables.now parts.now.calls.now from lsp label msg.now) }
{
    let Some(leg) = parts.tables.get(&lsp) else {
        return Ok(Change::nothing(alloc));
    };
    match leg.phase {
        Phase::Armed => confirm(alloc, parts, from, leg, msg),
        _ => connect(alloc, parts, from, leg, label, msg),
    }
}

// PathErrs

// A PathErr with Path_State_Removed.
fn remove(
    alloc: Global,
    parts: &NodeParts<'_>,
    from: NodeId,
    lsp: Lsp,
    code: ErrCode,
    msg: &Msg,
) -> Changed
    ensures { IfOk result (λ c. c
        ≡ removal_followed parts.now.tables.now parts.now.calls.now from lsp code msg.now) }
{
    let mut change = path_err_change(alloc, parts.tables, from, msg)?;
    if refuses(parts.tables, from, msg) {
        refuse_lsp(alloc, &mut change, parts.tables, parts.calls, lsp, code)?;
    }
    Ok(change)
}

// The call of this leg, which begins here and is Held again.
fn follow_busy(
    alloc: Global,
    change: &mut Change,
    parts: &NodeParts<'_>,
    leg: &Leg,
) -> Result<(), OutOfMemory>
    requires tables { TablesFit parts.now.tables.now parts.now.owner.now parts.now.shares.now }
    ensures { OnOk result (change.new ≡ followed_by change.old
        (contended_here parts.now.tables.now parts.now.calls.now (with_phase Held leg.now))) }
{
    let leg = with_phase(alloc, leg, Phase::Held)?;
    answer_busy(alloc, change, &ingress_of(parts), &leg)
}

// A PathErr without it, at this leg of its LSP.
fn disarm_leg(alloc: Global, parts: &NodeParts<'_>, from: NodeId, leg: &Leg, msg: &Msg) -> Changed
    requires tables { TablesFit parts.now.tables.now parts.now.owner.now parts.now.shares.now }
    ensures { IfOk result (λ c. c
        ≡ busy_at parts.now.tables.now parts.now.calls.now from msg.now (Some leg.now)) }
{
    let mut change = busy_change(alloc, parts.tables, from, msg)?;
    if contends(parts.tables, from, msg) {
        follow_busy(alloc, &mut change, parts, leg)?;
    }
    Ok(change)
}

// A PathErr without it.
fn disarm(alloc: Global, parts: &NodeParts<'_>, from: NodeId, lsp: Lsp, msg: &Msg) -> Changed
    requires tables { TablesFit parts.now.tables.now parts.now.owner.now parts.now.shares.now }
    ensures { IfOk result (λ c. c
        ≡ busy_followed parts.now.tables.now parts.now.calls.now from lsp msg.now) }
{
    match parts.tables.get(&lsp) {
        None => busy_change(alloc, parts.tables, from, msg),
        Some(leg) => disarm_leg(alloc, parts, from, leg, msg),
    }
}

// Notifies

fn on_notify(alloc: Global, parts: &NodeParts<'_>, from: NodeId, msg: &Msg) -> Changed
    requires tables { TablesFit parts.now.tables.now parts.now.owner.now parts.now.shares.now }
    ensures { IfOk result (λ c. c
        ≡ notice_followed parts.now.tables.now parts.now.calls.now from msg.now) }
{
    if reports(parts.tables, from, msg) {
        let mut change = Change::nothing(alloc);
        answer_report(alloc, &mut change, &ingress_of(parts), msg)?;
        return Ok(change);
    }
    pass_change(alloc, parts.tables, from, msg)
}

/// What a message from a neighbour does to the leg of its LSP. At the ingress its call follows.
pub(crate) fn on_message(alloc: Global, parts: &NodeParts<'_>, from: NodeId, msg: &Msg) -> Changed
    requires tables { TablesFit parts.now.tables.now parts.now.owner.now parts.now.shares.now }
    requires rows { CanSearch parts.now.tables.now }
    ensures { IfOk result
        (λ c. c ≡ message_here parts.now.tables.now parts.now.calls.now from msg.now) }
{
    match msg {
        Msg::Path { lsp, role, .. } => on_path(alloc, parts, from, *lsp, role, msg),
        Msg::Resv { lsp, label, .. } => on_resv(alloc, parts, from, *lsp, *label, msg),
        Msg::PathTear { .. } => tear_change(alloc, parts.tables, from, msg),
        Msg::PathErr {
            lsp,
            removed,
            code,
            ..
        } => {
            if *removed {
                remove(alloc, parts, from, *lsp, *code, msg)
            } else {
                disarm(alloc, parts, from, *lsp, msg)
            }
        }
        Msg::Notify { .. } => on_notify(alloc, parts, from, msg),
    }
}

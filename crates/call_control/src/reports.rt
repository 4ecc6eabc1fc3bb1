//! Reports of fibres at the ingress of their LSP: what a call knows to be down of its two routes,
//! and what follows (ITU-T G.8080, call control; Notify: RFC 3473, section 4.3).

ghost use Rattle.std.specs.Prelude.{◌≡◌, IfOk, OnOk};
ghost use Rattle.mesh_rules.specs.{Changes.followed_by, Pairs.route_from, Reports.{fibre_into, fibres_after, first_node, reported, with_fibre, with_report}};
ghost use Rattle.leg_table.specs.{LegClaims.ClaimsFit, States.local_of};
ghost use Rattle.call_control.specs.Rules.{reported_here};

use crate::turns::{decide, has_any};
use crate::{IngressParts, id_of, leg_of};
use ason_base::codes::{FIBRE_DOWN, FIBRE_UP};
use ason_base::{
    CallRec, Copied, ErrCode, Fibre, Fibres, Leg, LinkId, Lsp, Msg, NodeId, OutOfMemory, Step,
};
use leg_table::{Change, NodeTables};
use std::alloc::Global;

// What is reported

/// Whether a fibre went down, or came up; another code reports nothing.
pub fn reported(code: ErrCode) -> Option<bool>
    ensures { result ≡ reported code }
{
    if code == FIBRE_DOWN {
        Some(true)
    } else if code == FIBRE_UP {
        Some(false)
    } else {
        None
    }
}

// The node to which a route to the egress goes on.
fn first_node(route: &[Step], egress: NodeId) -> NodeId
    ensures { result ≡ first_node route.now egress }
{
    match route {
        [] => egress,
        [hop, ..] => hop.node,
    }
}

// The fibre of a route to the egress that comes in at the node over the link.
fn fibre_into(route: &[Step], egress: NodeId, node: NodeId, link: LinkId) -> Option<Fibre>
    ensures { result ≡ fibre_into route.now egress node link }
{
    match route {
        [] => None,
        [hop, others @ ..] => {
            if hop.link == link && first_node(others, egress) == node {
                Some(Fibre {
                    link: hop.link,
                    forward: hop.node.0 < node.0,
                })
            } else {
                fibre_into(others, egress, node, link)
            }
        }
    }
}

/// The fibre of the LSP whose leg begins here that comes in at the node over the link.
pub fn fibre_of(tables: &NodeTables, leg: &Leg, node: NodeId, link: LinkId) -> Option<Fibre>
    ensures { result
        ≡ fibre_into (route_from (local_of tables.now) leg.now) leg.now.egress node link }
{
    let route = leg.route.items();
    match leg.out_fibre {
        Some(out) if out.link == link && first_node(route, leg.egress) == node => Some(Fibre {
            link: out.link,
            forward: id_of(tables).0 < node.0,
        }),
        _ => fibre_into(route, leg.egress, node, link),
    }
}

// The report sets

fn add_fibre(fibres: &mut Fibres, fibre: Fibre) -> Result<(), OutOfMemory>
    ensures { OnOk result (fibres.new ≡ with_fibre fibre fibres.old) }
{
    if fibres.has(fibre) {
        Ok(())
    } else {
        fibres.push(fibre)
    }
}

// The fibres after it went down, or came up.
fn change_fibres(fibres: &mut Fibres, down: bool, fibre: Fibre) -> Result<(), OutOfMemory>
    ensures { OnOk result (fibres.new ≡ fibres_after down fibre fibres.old) }
{
    if down {
        add_fibre(fibres, fibre)?;
    } else {
        fibres.remove(fibre);
    }
    Ok(())
}

// The call with the report of a fibre of this LSP. It doesn't wait while its working route has
// any.
fn with_report(call: CallRec, lsp: Lsp, down: bool, fibre: Fibre) -> Result<CallRec, OutOfMemory>
    ensures { IfOk result (λ c. c ≡ with_report call lsp down fibre) }
{
    let mut told = call;
    if told.work == Some(lsp) {
        change_fibres(&mut told.work_reports, down, fibre)?;
        if has_any(&told.work_reports) {
            told.ticks = 0;
        }
    } else {
        change_fibres(&mut told.back_reports, down, fibre)?;
    }
    Ok(told)
}

// What follows

/// What a Notify tells the call of its LSP, whose leg begins here: the fibre is reported down, or
/// isn't any more, and the call may turn or go back. A message of another kind does nothing.
pub fn answer_report(
    alloc: Global,
    change: &mut Change,
    parts: &IngressParts<'_>,
    msg: &Msg,
) -> Result<(), OutOfMemory>
    requires { ClaimsFit parts.now.tables.now.legs parts.now.owner.now }
    ensures { OnOk result (change.new ≡ followed_by change.old
        (reported_here parts.now.tables.now parts.now.calls.now msg.now)) }
{
    let Msg::Notify {
        lsp,
        at,
        link,
        code,
        ..
    } = msg
    else {
        return Ok(());
    };
    let (Some(leg), Some(down)) = (parts.tables.get(lsp), reported(*code)) else {
        return Ok(());
    };
    let Some(fibre) = fibre_of(parts.tables, leg, *at, *link) else {
        return Ok(());
    };
    let Some(call) = parts.calls.with_lsp(leg.lsp) else {
        return Ok(());
    };
    let call = with_report(call.copy(alloc)?, leg.lsp, down, fibre)?;
    let back = leg_of(parts.tables, call.back);
    decide(alloc, change, parts, call, back)
}

//! What a table shows of a node.

ghost use Rattle.std.specs.Prelude.{◌≡◌, ◌<◌, ◌+◌, IfOk, OnOk, length, map, take};
ghost use Rattle.mesh_rules.specs.Rows.{call_row, leg_row, link_of, standing};

use ason_base::{
    CallRec, CallRow, CallRows, Fibre, Leg, LegRow, LegRows, LinkId, Lsp, NodeId, OutOfMemory,
};
use leg_table::NodeTables;
use std::alloc::Global;

fn standing(tables: &NodeTables, lsp: Option<Lsp>) -> Option<Lsp>
    ensures { result ≡ standing lsp tables.now.legs }
{
    let lsp = lsp?;
    match tables.get(&lsp) {
        None => None,
        Some(_) => Some(lsp),
    }
}

fn call_row(n: NodeId, tables: &NodeTables, call: &CallRec) -> CallRow
    ensures { result ≡ call_row n tables.now.legs call.now }
{
    CallRow {
        call: call.call,
        ingress: n,
        egress: call.egress,
        state: call.state,
        work: standing(tables, call.work),
        back: standing(tables, call.back),
        cause: call.cause,
    }
}

pub(crate) fn call_rows(
    alloc: Global,
    n: NodeId,
    tables: &NodeTables,
    calls: &[CallRec],
) -> Result<CallRows, OutOfMemory>
    ensures { IfOk result (λ rows. rows ≡ map (call_row n tables.now.legs) calls.now) }
{
    let mut rows = CallRows::new(alloc);
    for call in calls {
        rows.push(call_row(n, tables, call))?;
    }
    Ok(rows)
}

fn link_of(fibre: Option<Fibre>) -> Option<LinkId>
    ensures { result ≡ link_of fibre }
{
    match fibre {
        None => None,
        Some(fibre) => Some(fibre.link),
    }
}

fn leg_row(n: NodeId, leg: &Leg) -> LegRow
    ensures { result ≡ leg_row n leg.now }
{
    LegRow {
        lsp: leg.lsp,
        node: n,
        role: leg.role,
        phase: leg.phase,
        in_link: link_of(leg.in_fibre),
        in_label: leg.in_label,
        out_link: link_of(leg.out_fibre),
        out_label: leg.out_label,
        back_in: leg.back_in,
        back_out: leg.back_out,
    }
}

// The row of the leg at this place comes after those before it.
fn push_leg_row(
    rows: &mut LegRows,
    n: NodeId,
    tables: &NodeTables,
    place: usize,
) -> Result<(), OutOfMemory>
    requires before { rows.old ≡ map (leg_row n) (take place tables.now.legs) }
    requires within { place < length tables.now.legs }
    ensures { OnOk result (rows.new ≡ map (leg_row n) (take (place + 1) tables.now.legs)) }
{
    match tables.leg_at(place) {
        None => unreachable!(),
        Some(leg) => rows.push(leg_row(n, leg)),
    }
}

pub(crate) fn leg_rows(
    alloc: Global,
    n: NodeId,
    tables: &NodeTables,
) -> Result<LegRows, OutOfMemory>
    ensures { IfOk result (λ rows. rows ≡ map (leg_row n) tables.now.legs) }
{
    let mut rows = LegRows::new(alloc);
    for place in 0..tables.count() {
        push_leg_row(&mut rows, n, tables, place)?;
    }
    Ok(rows)
}

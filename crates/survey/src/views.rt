//! Calls with those of their legs that a survey asks about.

ghost use Rattle.std.specs.Prelude.{◌≡◌, ◌==◌, ◌&&◌, List, IfOk, filter, map};
ghost use Rattle.ason_base.specs.declared.calls.LegRow.{LegRow};
ghost use Rattle.mesh_rules.specs.Legs.{is_beyond_asked, is_label};
ghost use Rattle.mesh_laws.specs.Survey.{is_link, row_takes};
ghost use Rattle.survey.specs.{Index.IsLegIndexOf, Views.{is_guarded, is_live_leg, is_on_label, is_on_link, passes, takes, view_of}};

use crate::index::{LegIndex, index_of, rows_of_lsp};
use ason_base::{
    CallRow, Copied, Items, Label, LegRow, LegRows, LinkId, NodeId, OutOfMemory, Phase, Role,
    TableRows, copied,
};
use std::alloc::Global;

/// A call, the Live legs of its working LSP, and the legs of its backup.
pub(crate) struct CallView {
    pub(crate) call: CallRow,
    pub(crate) live: LegRows,
    pub(crate) backup: LegRows,
}

impl Copied for CallView {
    fn copy(&self, alloc: Global) -> Result<CallView, OutOfMemory> {
        copied!(self, alloc; CallView { call; live, backup })
    }
}

impl Drop for CallView {
    fn drop(self) {
        let CallView {
            call: _,
            live: _,
            backup: _,
        } = self;
    }
}

fn is_beyond_asked(phase: Phase) -> bool
    ensures { result ≡ is_beyond_asked phase }
{
    matches!(phase, Phase::Held | Phase::Armed | Phase::Live)
}

fn is_live_leg(row: &LegRow) -> bool
    ensures { result ≡ is_live_leg row.now }
{
    row.role == Role::Work && row.phase == Phase::Live
}

// Those of the rows that are Live legs of working LSPs.
fn live_legs(alloc: Global, legs: &[LegRow]) -> Result<LegRows, OutOfMemory>
    ensures { IfOk result (λ rows. rows ≡ filter is_live_leg legs.now) }
{
    let mut rows = Vec::new(alloc);
    for row in legs {
        if is_live_leg(row) {
            rows.push(*row)?;
        }
    }
    Ok(Items::from_vec(rows))
}

fn view_of(alloc: Global, index: &LegIndex, call: &CallRow) -> Result<CallView, OutOfMemory>
    ensures { (legs : List LegRow) → IsLegIndexOf legs index.now
        → IfOk result (λ view. view ≡ view_of legs call.now) }
{
    let live = live_legs(alloc, rows_of_lsp(index, call.work))?;
    let backup = Vec::from_slice(alloc, rows_of_lsp(index, call.back))?;
    Ok(CallView {
        call: *call,
        live,
        backup: Items::from_vec(backup),
    })
}

fn views_in(
    alloc: Global,
    index: &LegIndex,
    calls: &[CallRow],
) -> Result<Vec<CallView>, OutOfMemory>
    ensures { (legs : List LegRow) → IsLegIndexOf legs index.now
        → IfOk result (λ views. views.items ≡ map (view_of legs) calls.now) }
{
    let mut views = Vec::new(alloc);
    for call in calls {
        views.push(view_of(alloc, index, call)?)?;
    }
    Ok(views)
}

/// The calls of a table.
pub(crate) fn views_of(alloc: Global, rows: &TableRows) -> Result<Vec<CallView>, OutOfMemory>
    ensures { IfOk result
        (λ views. views.items ≡ map (view_of rows.now.legs) rows.now.calls) }
{
    let index = index_of(alloc, rows.legs.items())?;
    views_in(alloc, &index, rows.calls.items())
}

/// Whether the ingress has its backup's leg, Held, Armed or Live.
pub(crate) fn is_guarded(view: &CallView) -> bool
    ensures { result ≡ is_guarded view.now }
{
    let ingress = view.call.ingress;
    view.backup
        .items()
        .iter()
        .any(|row| row.node == ingress && is_beyond_asked(row.phase))
}

/// Whether it is this link.
pub(crate) fn is_link(link: Option<LinkId>, wanted: LinkId) -> bool
    ensures { result ≡ is_link link wanted }
{
    match link {
        None => false,
        Some(link) => link == wanted,
    }
}

fn is_label(label: Option<Label>, wanted: Label) -> bool
    ensures { result ≡ is_label label wanted }
{
    match label {
        None => false,
        Some(label) => label.number() == wanted.number(),
    }
}

// Whether the leg takes this label of the fibre that comes in over this link at its node.
fn row_takes(row: &LegRow, link: LinkId, label: Label) -> bool
    ensures { result ≡ row_takes link label row.now }
{
    (is_link(row.in_link, link) && is_label(row.in_label, label))
        || (is_link(row.out_link, link) && is_label(row.back_in, label))
}

fn is_on_link(row: &LegRow, node: NodeId, link: LinkId) -> bool
    ensures { result ≡ is_on_link node link row.now }
{
    row.node == node && (is_link(row.in_link, link) || is_link(row.out_link, link))
}

fn is_on_label(row: &LegRow, node: NodeId, link: LinkId, label: Label) -> bool
    ensures { result ≡ is_on_label node link label row.now }
{
    row.node == node && row_takes(row, link, label)
}

/// Whether its backup passes this link at this node.
pub(crate) fn passes(view: &CallView, node: NodeId, link: LinkId) -> bool
    ensures { result ≡ passes node link view.now }
{
    view.backup
        .items()
        .iter()
        .any(|row| is_on_link(row, node, link))
}

/// Whether its backup takes this label of the fibre that comes in over this link at this node.
pub(crate) fn takes(view: &CallView, node: NodeId, link: LinkId, label: Label) -> bool
    ensures { result ≡ takes node link label view.now }
{
    view.backup
        .items()
        .iter()
        .any(|row| is_on_label(row, node, link, label))
}

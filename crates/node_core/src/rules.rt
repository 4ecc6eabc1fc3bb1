//! The rule of each input: orders and other items of the desk, ticks and rows that are learnt; a message's is in `messages`.

ghost use Rattle.std.specs.Prelude.{◌≡◌, IfOk};
ghost use Rattle.leg_table.specs.Fits.{TablesFit};
ghost use Rattle.call_control.specs.Rules.{protect_here, setup_here};
ghost use Rattle.mesh_nodes.specs.Nodes.{answer_to};
ghost use Rattle.node_core.specs.{Nodes.node_view_of, Rules.{CanSearch, item_here, order_here, row_here}};

use crate::messages::on_message;
use crate::routes::{backup_beside, least_route};
use ason_base::{CallNo, Command, Copied, DeskItem, NodeId, TeRow};
use call_control::{
    IngressParts, SetupRequest, protect, release, retry, revert_change, seeks_route, set_up,
    sought_by_protect, tick_change,
};
use leg_table::changes::Changed;
use leg_table::{Calls, Change, NodeTables};
use link_owner::Owner;
use mesh_nodes::Input;
use notify::{alarm_change, clear_change};
use share_check::Shares;
use std::alloc::Global;

/// What one node has, for reading: its tables, the owner of its labels, the shares of its backups
/// and its calls.
#[derive(Clone, Copy, Drop)]
pub(crate) struct NodeParts<'a> {
    pub tables: &'a NodeTables,
    pub owner: &'a Owner,
    pub shares: &'a Shares,
    pub calls: &'a Calls,
}

/// What an ingress reads of it.
pub(crate) fn ingress_of<'a>(parts: &NodeParts<'a>) -> IngressParts<'a>
    ensures tables { result.tables.now ≡ parts.now.tables.now }
    ensures owner { result.owner.now ≡ parts.now.owner.now }
    ensures calls { result.calls.now ≡ parts.now.calls.now }
{
    IngressParts {
        tables: parts.tables,
        owner: parts.owner,
        calls: parts.calls,
    }
}

// Orders

// A setup, over the least route from here where none is given.
fn on_setup(alloc: Global, parts: &NodeParts<'_>, request: &SetupRequest<'_>) -> Changed
    requires tables { TablesFit parts.now.tables.now parts.now.owner.now parts.now.shares.now }
    requires rows { CanSearch parts.now.tables.now }
    ensures { IfOk result
        (λ c. c ≡ setup_here parts.now.tables.now parts.now.calls.now request.now) }
{
    let tables = parts.tables;
    let route = if seeks_route(tables, parts.calls, request) {
        least_route(alloc, tables.rows(), tables.node().id, request.egress)?
    } else {
        None
    };
    set_up(
        alloc,
        &ingress_of(parts),
        parts.shares,
        request,
        route.as_ref(),
    )
}

fn on_protect(alloc: Global, parts: &NodeParts<'_>, number: CallNo, from: NodeId) -> Changed
    requires tables { TablesFit parts.now.tables.now parts.now.owner.now parts.now.shares.now }
    requires rows { CanSearch parts.now.tables.now }
    ensures { IfOk result
        (λ c. c ≡ protect_here parts.now.tables.now parts.now.calls.now number from) }
{
    let sought = sought_by_protect(parts.tables, parts.calls, number, from);
    let backup = backup_beside(alloc, parts.tables, sought)?;
    protect(
        alloc,
        &ingress_of(parts),
        parts.shares,
        number,
        from,
        backup.as_ref(),
    )
}

fn on_order(alloc: Global, parts: &NodeParts<'_>, command: &Command) -> Changed
    requires tables { TablesFit parts.now.tables.now parts.now.owner.now parts.now.shares.now }
    requires rows { CanSearch parts.now.tables.now }
    ensures { IfOk result
        (λ c. c ≡ order_here parts.now.tables.now parts.now.calls.now command.now) }
{
    let tables = parts.tables;
    let calls = parts.calls;
    match command {
        Command::Setup { .. } => match SetupRequest::of(command) {
            None => Ok(Change::nothing(alloc)),
            Some(request) => on_setup(alloc, parts, &request),
        },
        Command::Release { call, from } => release(alloc, tables, calls, *call, *from),
        Command::Protect { call, from } => on_protect(alloc, parts, *call, *from),
        Command::Retry { call, from } => retry(alloc, &ingress_of(parts), *call, *from),
        Command::Revert { call, from } => revert_change(alloc, tables, calls, *call, *from),
        Command::Fail { .. } | Command::Repair { .. } => Ok(Change::nothing(alloc)),
    }
}

// What an item of the desk does.
fn on_item(alloc: Global, parts: &NodeParts<'_>, item: &DeskItem) -> Changed
    requires tables { TablesFit parts.now.tables.now parts.now.owner.now parts.now.shares.now }
    requires rows { CanSearch parts.now.tables.now }
    ensures { IfOk result
        (λ c. c ≡ item_here parts.now.tables.now parts.now.calls.now item.now) }
{
    match item {
        DeskItem::Order(command) => on_order(alloc, parts, command),
        DeskItem::Alarm(fibre) => alarm_change(alloc, parts.tables, *fibre),
        DeskItem::Clear(fibre) => clear_change(alloc, parts.tables, *fibre),
    }
}

// What a row of a link that a neighbour knows does: it is learnt, unless the link is known.
fn on_row(alloc: Global, tables: &NodeTables, calls: &Calls, row: &TeRow) -> Changed
    requires { CanSearch tables.now }
    ensures { IfOk result (λ c. c ≡ row_here tables.now calls.now row.now) }
{
    if tables.knows(row.link) {
        return Ok(Change::nothing(alloc));
    }
    let row = row.copy(alloc)?;
    Ok(Change::learns(alloc, row))
}

/// What an input does: what the node answers to it.
pub(crate) fn on_input(alloc: Global, parts: &NodeParts<'_>, input: &Input) -> Changed
    requires tables { TablesFit parts.now.tables.now parts.now.owner.now parts.now.shares.now }
    requires rows { CanSearch parts.now.tables.now }
    ensures { IfOk result
        (λ c. c ≡ answer_to (node_view_of parts.now.tables.now parts.now.calls.now) input.now) }
{
    match input {
        Input::Message { from, msg } => on_message(alloc, parts, *from, msg),
        Input::Desk(item) => on_item(alloc, parts, item),
        Input::Tick => tick_change(alloc, parts.tables, parts.calls),
        Input::Learn(row) => on_row(alloc, parts.tables, parts.calls, row),
    }
}

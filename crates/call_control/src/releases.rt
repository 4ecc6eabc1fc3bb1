//! The release of a call at its ingress (RFC 2205, section 3.1.5).

ghost use Rattle.std.specs.{Prelude.{◌≡◌, IfOk, OnOk}, Option.option_copied};
ghost use Rattle.mesh_rules.specs.{Changes.followed_by, Releases.{releases, tears}};
ghost use Rattle.leg_table.specs.States.{legs_state};
ghost use Rattle.call_control.specs.Rules.{release_here};

use crate::{id_of, leg_of};
use ason_base::{CallNo, CallRec, Leg, Msg, NodeId, OutOfMemory};
use leg_table::changes::Changed;
use leg_table::one_leg::{closed, following};
use leg_table::{Calls, Change, NodeTables};
use std::alloc::Global;

// Tears the LSP of this leg, if it stands.
fn tear(alloc: Global, change: &mut Change, leg: Option<&Leg>) -> Result<(), OutOfMemory>
    ensures { OnOk result (change.new ≡ followed_by change.old (tears (option_copied leg.entry))) }
{
    let Some(leg) = leg else {
        return Ok(());
    };
    if let Some(next) = following(leg) {
        let msg = Msg::PathTear {
            lsp: leg.lsp,
            egress: leg.egress,
            link: next.fibre.link,
        };
        change.send(next.node, msg)?;
    }
    change.put(closed(alloc, leg)?)
}

// The LSPs of the call are torn, and the call goes.
fn let_go(
    alloc: Global,
    change: &mut Change,
    tables: &NodeTables,
    call: &CallRec,
) -> Result<(), OutOfMemory>
    ensures { OnOk result
        (change.new ≡ followed_by change.old (releases (legs_state tables.now) call.now)) }
{
    tear(alloc, change, leg_of(tables, call.work))?;
    tear(alloc, change, leg_of(tables, call.back))?;
    change.remove_call(call.call)
}

/// What a release does: the LSPs of the call are torn, and the call goes.
pub fn release(
    alloc: Global,
    tables: &NodeTables,
    calls: &Calls,
    number: CallNo,
    from: NodeId,
) -> Changed
    ensures { IfOk result (λ c. c ≡ release_here tables.now calls.now number from) }
{
    if from != id_of(tables) {
        return Ok(Change::nothing(alloc));
    }
    let Some(call) = calls.get(number) else {
        return Ok(Change::nothing(alloc));
    };
    let mut change = Change::nothing(alloc);
    let_go(alloc, &mut change, tables, call)?;
    Ok(change)
}

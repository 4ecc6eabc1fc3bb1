//! The order to protect a call that stands without a backup (ITU-T G.8080, call control).

ghost use Rattle.std.specs.{Prelude.{◌≡◌, IfOk}, Option.option_copied};
ghost use Rattle.mesh_nodes.specs.LocalNodes.{LocalNodeFits};
ghost use Rattle.leg_table.specs.{LegClaims.AreOfOneNode, States.local_of};
ghost use Rattle.call_control.specs.{Rules.protect_here, Searches.{IsBackupFor, RowsAreKnown, sought_by_protect, unprotected_here}};

use crate::call_states::{has_no_backup, is_bare};
use crate::pairs::{PairRequest, pair};
use crate::{IngressParts, id_of, leg_of};
use ason_base::{CallNo, CallRec, Leg, NodeId, Steps};
use leg_table::changes::Changed;
use leg_table::{Calls, Change, NodeTables};
use share_check::Shares;
use std::alloc::Global;

// The call of this number, if it stands without a backup and its ingress is here.
fn unprotected<'a>(
    tables: &NodeTables,
    calls: &'a Calls,
    number: CallNo,
    from: NodeId,
) -> Option<&'a CallRec>
    ensures { option_copied result ≡ unprotected_here tables.now calls.now number from }
{
    match calls.get(number) {
        Some(call) if from == id_of(tables) && is_bare(call.state) => Some(call),
        _ => None,
    }
}

/// The leg beside whose LSP a backup route is to be searched for by this order: that of a call
/// that stands without a backup and was given no backup route.
pub fn sought_by_protect<'a>(
    tables: &'a NodeTables,
    calls: &Calls,
    number: CallNo,
    from: NodeId,
) -> Option<&'a Leg>
    ensures { option_copied result ≡ sought_by_protect tables.now calls.now number from }
{
    match unprotected(tables, calls, number, from) {
        Some(call) if has_no_backup(call) => leg_of(tables, call.work),
        _ => None,
    }
}

/// What the order does: a backup is asked for beside the working LSP of a call that stands without
/// one. The backup route is the least one that is found where one is sought.
pub fn protect(
    alloc: Global,
    parts: &IngressParts<'_>,
    shares: &Shares,
    number: CallNo,
    from: NodeId,
    backup: Option<&Steps>,
) -> Changed
    requires links { LocalNodeFits (local_of parts.now.tables.now) }
    requires node { AreOfOneNode parts.now.tables.now parts.now.owner.now shares.now }
    requires rows { RowsAreKnown parts.now.tables.now }
    requires backup { IsBackupFor parts.now.tables.now
        (sought_by_protect parts.now.tables.now parts.now.calls.now number from)
        (option_copied backup) }
    ensures { IfOk result
        (λ c. c ≡ protect_here parts.now.tables.now parts.now.calls.now number from) }
{
    let Some(call) = unprotected(parts.tables, parts.calls, number, from) else {
        return Ok(Change::nothing(alloc));
    };
    let Some(work) = leg_of(parts.tables, call.work) else {
        return Ok(Change::nothing(alloc));
    };
    let request = PairRequest {
        call,
        work,
        found: backup,
    };
    let mut change = Change::nothing(alloc);
    pair(alloc, &mut change, parts, shares, &request)?;
    Ok(change)
}

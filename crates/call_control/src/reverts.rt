//! The order to go back from the backup to the working LSP (ITU-T G.8080, call control).

ghost use Rattle.std.specs.Prelude.{◌≡◌, IfOk};
ghost use Rattle.call_control.specs.Reverts.{revert_here};

use crate::call_states::is_turned;
use crate::turns::{go_back, has_any};
use crate::{id_of, leg_of};
use ason_base::{CallNo, Copied, NodeId};
use leg_table::changes::Changed;
use leg_table::{Calls, Change, NodeTables};
use std::alloc::Global;

/// What the order does: a turned call goes back where its working LSP isn't hit.
pub fn revert_change(
    alloc: Global,
    tables: &NodeTables,
    calls: &Calls,
    number: CallNo,
    from: NodeId,
) -> Changed
    ensures { IfOk result (λ c. c ≡ revert_here tables.now calls.now number from) }
{
    let mut change = Change::nothing(alloc);
    if from != id_of(tables) {
        return Ok(change);
    }
    let Some(call) = calls.get(number) else {
        return Ok(change);
    };
    if is_turned(call.state) && !has_any(&call.work_reports) {
        let back = leg_of(tables, call.back);
        go_back(alloc, &mut change, call.copy(alloc)?, back)?;
    }
    Ok(change)
}

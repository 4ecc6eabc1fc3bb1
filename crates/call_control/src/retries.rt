//! The order to try again to turn a call that is stuck (ITU-T G.8080, call control).

ghost use Rattle.std.specs.Prelude.{◌≡◌, IfOk};
ghost use Rattle.leg_table.specs.LegClaims.{ClaimsFit};
ghost use Rattle.call_control.specs.Rules.{retry_here};

use crate::call_states::is_stuck;
use crate::turns::{has_any, turn};
use crate::{IngressParts, id_of, leg_of};
use ason_base::{CallNo, Copied, NodeId};
use leg_table::Change;
use leg_table::changes::Changed;
use std::alloc::Global;

/// What the order does: a stuck call turns where its working LSP is hit and its backup isn't. It is
/// stuck again where a label of the backup is in use here.
pub fn retry(alloc: Global, parts: &IngressParts<'_>, number: CallNo, from: NodeId) -> Changed
    requires { ClaimsFit parts.now.tables.now.legs parts.now.owner.now }
    ensures { IfOk result
        (λ c. c ≡ retry_here parts.now.tables.now parts.now.calls.now number from) }
{
    if from != id_of(parts.tables) {
        return Ok(Change::nothing(alloc));
    }
    let Some(call) = parts.calls.get(number) else {
        return Ok(Change::nothing(alloc));
    };
    if !is_stuck(call.state) || !has_any(&call.work_reports) || has_any(&call.back_reports) {
        return Ok(Change::nothing(alloc));
    }
    let call = call.copy(alloc)?;
    let back = leg_of(parts.tables, call.back);
    let mut change = Change::nothing(alloc);
    turn(alloc, &mut change, parts, call, back)?;
    Ok(change)
}

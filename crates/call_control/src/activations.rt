//! What becomes of a call once its backup is active from end to end, or a label of it is in use
//! (ITU-T G.8080, call control; RFC 4872, section 8).

ghost use Rattle.std.specs.Prelude.{◌≡◌, OnOk};
ghost use Rattle.mesh_rules.specs.Changes.{followed_by};
ghost use Rattle.leg_table.specs.LegClaims.{ClaimsFit};
ghost use Rattle.call_control.specs.Rules.{contended_here, turned_here};

use crate::IngressParts;
use crate::call_states::{is_turning, stuck, turned};
use crate::turns::decide;
use ason_base::codes::BUSY;
use ason_base::{Cause, Copied, Leg, OutOfMemory};
use leg_table::Change;
use std::alloc::Global;

/// What becomes of the call of this leg, which begins here and is Live now: a call that was turning
/// is turned, and may go back at once.
pub fn answer_confirmed(
    alloc: Global,
    change: &mut Change,
    parts: &IngressParts<'_>,
    leg: &Leg,
) -> Result<(), OutOfMemory>
    requires { ClaimsFit parts.now.tables.now.legs parts.now.owner.now }
    ensures { OnOk result (change.new ≡ followed_by change.old
        (turned_here parts.now.tables.now parts.now.calls.now leg.now)) }
{
    match parts.calls.with_lsp(leg.lsp) {
        Some(call) if is_turning(call.state) => {
            decide(alloc, change, parts, turned(call.copy(alloc)?), Some(leg))
        }
        _ => Ok(()),
    }
}

/// What becomes of the call of this leg, which begins here and is Held again, since a label of its
/// LSP is in use: a call that was turning is stuck.
pub fn answer_busy(
    alloc: Global,
    change: &mut Change,
    parts: &IngressParts<'_>,
    leg: &Leg,
) -> Result<(), OutOfMemory>
    requires { ClaimsFit parts.now.tables.now.legs parts.now.owner.now }
    ensures { OnOk result (change.new ≡ followed_by change.old
        (contended_here parts.now.tables.now parts.now.calls.now leg.now)) }
{
    match parts.calls.with_lsp(leg.lsp) {
        Some(call) if is_turning(call.state) => {
            let call = stuck(call.copy(alloc)?, Cause::Code(BUSY));
            decide(alloc, change, parts, call, Some(leg))
        }
        _ => Ok(()),
    }
}

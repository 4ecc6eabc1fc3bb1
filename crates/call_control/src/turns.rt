//! A call turns to its backup where its working LSP is hit, as far as the backup isn't, and goes back
//! where its backup is hit alone (ITU-T G.8080, call control; RFC 4872, section 8).

ghost use Rattle.std.specs.{Prelude.{◌≡◌, [], ◌∷◌, IfOk, OnOk}, Option.option_copied};
ghost use Rattle.mesh_rules.specs.{Activations.path_to, Changes.{followed_by, sends}, Legs.following, Turns.{arms, decide, disarms, go_back, has_any, turn, turn_to}};
ghost use Rattle.leg_table.specs.LegClaims.{ClaimsFit};
ghost use Rattle.call_control.specs.Turning.{role_again, sent_again};

use crate::IngressParts;
use crate::call_states::{guarded, stuck, turning};
use ason_base::codes::BUSY;
use ason_base::{
    CallRec, CallState, Cause, Copied, Fibres, Leg, Msg, OutOfMemory, PathRole, Phase,
};
use leg_labels::is_contended;
use leg_table::Change;
use leg_table::one_leg::{following, is_held, is_in_use, with_phase};
use mesh_rules::Neighbour;
use std::alloc::Global;

// The Path of a backup

// The role of a Path that activates, or that takes an activation back.
fn role_again(alloc: Global, active: bool, role: &PathRole) -> Result<PathRole, OutOfMemory>
    ensures { IfOk result (λ r. r ≡ role_again active role.now) }
{
    match role {
        PathRole::Work { guard } => Ok(PathRole::Work { guard: *guard }),
        PathRole::Back { work, primary, .. } => Ok(PathRole::Back {
            active,
            work: *work,
            primary: primary.copy(alloc)?,
        }),
    }
}

// The Path of the LSP of this leg, which begins here, goes to the next node again, for this role.
fn send_path(
    alloc: Global,
    change: &mut Change,
    leg: &Leg,
    next: Neighbour,
    role: PathRole,
) -> Result<(), OutOfMemory>
    ensures { OnOk result (change.new
        ≡ followed_by change.old (sends (path_to leg.now leg.now.route role next ∷ []))) }
{
    let path = Msg::Path {
        lsp: leg.lsp,
        egress: leg.egress,
        link: next.fibre.link,
        route: leg.route.copy(alloc)?,
        set: leg.sent.copy(),
        upstream: leg.back_in,
        role,
    };
    change.send(next.node, path)
}

// The Path of the backup goes to the next node again: it activates the backup, or takes its
// activation back.
#[tactic(auto, using(crate::proofs::Again::none_again, crate::proofs::Again::next_again))]
fn send_again(
    alloc: Global,
    change: &mut Change,
    back: &Leg,
    active: bool,
) -> Result<(), OutOfMemory>
    ensures { OnOk result (change.new
        ≡ followed_by change.old (sends (sent_again active back.now (following back.now)))) }
{
    match following(back) {
        None => Ok(()),
        Some(next) => {
            let role = role_again(alloc, active, &back.path_role)?;
            send_path(alloc, change, back, next, role)
        }
    }
}

// Turning

// The backup is Armed here, and its Path goes out to activate it.
fn arm(alloc: Global, change: &mut Change, call: CallRec, back: &Leg) -> Result<(), OutOfMemory>
    ensures { OnOk result (change.new ≡ followed_by change.old (arms call back.now)) }
{
    send_again(alloc, change, back, true)?;
    change.put(with_phase(alloc, back, Phase::Armed)?)?;
    change.put_call(turning(call))
}

// The backup is activated where no label of it is in use; else the call is stuck.
fn turn_to(
    alloc: Global,
    change: &mut Change,
    parts: &IngressParts<'_>,
    call: CallRec,
    back: &Leg,
) -> Result<(), OutOfMemory>
    requires { ClaimsFit parts.now.tables.now.legs parts.now.owner.now }
    ensures { OnOk result (change.new
        ≡ followed_by change.old (turn_to parts.now.tables.now.legs call back.now)) }
{
    if is_contended(parts.tables, parts.owner, back) {
        change.put_call(stuck(call, Cause::Code(BUSY)))
    } else {
        arm(alloc, change, call, back)
    }
}

/// The call turns to its backup, which begins here: it is activated if it is Held. Where another
/// backup's leg is activated on a label of it, the call is stuck.
pub(crate) fn turn(
    alloc: Global,
    change: &mut Change,
    parts: &IngressParts<'_>,
    call: CallRec,
    back: Option<&Leg>,
) -> Result<(), OutOfMemory>
    requires { ClaimsFit parts.now.tables.now.legs parts.now.owner.now }
    ensures { OnOk result (change.new ≡ followed_by change.old
        (turn parts.now.tables.now.legs call (option_copied back.entry))) }
{
    match back {
        Some(back) if is_held(back.phase) => turn_to(alloc, change, parts, call, back),
        _ => change.put_call(call),
    }
}

// Going back

// The backup is Held here, and its Path goes out to take its activation back.
fn disarm(alloc: Global, change: &mut Change, call: CallRec, back: &Leg) -> Result<(), OutOfMemory>
    ensures { OnOk result (change.new ≡ followed_by change.old (disarms call back.now)) }
{
    send_again(alloc, change, back, false)?;
    change.put(with_phase(alloc, back, Phase::Held)?)?;
    change.put_call(guarded(call))
}

/// The call goes back from its backup, which begins here, to its working LSP, if the backup is
/// Armed or Live.
pub fn go_back(
    alloc: Global,
    change: &mut Change,
    call: CallRec,
    back: Option<&Leg>,
) -> Result<(), OutOfMemory>
    ensures { OnOk result
        (change.new ≡ followed_by change.old (go_back call (option_copied back.entry))) }
{
    match back {
        Some(back) if is_in_use(back.phase) => disarm(alloc, change, call, back),
        _ => change.put_call(call),
    }
}

// Decisions

/// Whether a fibre is reported.
pub fn has_any(fibres: &Fibres) -> bool
    ensures { result ≡ has_any fibres.now }
{
    !fibres.items().is_empty()
}

/// What follows of the call's state and of the fibres that are reported down: a guarded call turns
/// where its working LSP is hit alone, and is stuck where its backup is hit too; a turned one goes
/// back where its backup is hit alone; a stuck one is guarded again once its working LSP isn't hit.
pub fn decide(
    alloc: Global,
    change: &mut Change,
    parts: &IngressParts<'_>,
    call: CallRec,
    back: Option<&Leg>,
) -> Result<(), OutOfMemory>
    requires { ClaimsFit parts.now.tables.now.legs parts.now.owner.now }
    ensures { OnOk result (change.new ≡ followed_by change.old
        (decide parts.now.tables.now.legs call (option_copied back.entry))) }
{
    let works = has_any(&call.work_reports);
    let backs = has_any(&call.back_reports);
    match (call.state, works, backs) {
        (CallState::Guarded, true, false) => turn(alloc, change, parts, call, back),
        (CallState::Guarded, true, true) => change.put_call(stuck(call, Cause::BackDown)),
        (CallState::Turned, false, true) => go_back(alloc, change, call, back),
        (CallState::Stuck, false, _) => change.put_call(guarded(call)),
        _ => change.put_call(call),
    }
}

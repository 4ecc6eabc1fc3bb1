//! The words of states, roles, phases and codes.

ghost use Rattle.std.specs.Prelude.{◌≡◌, option_map};
ghost use Rattle.table_text.specs.TableText.{code_name, phase_word, role_word, state_word};

use ason_base::codes::{BUSY, DOWN, FULL, LABEL, PRIMARY, ROUTE, SET, TORN};
use ason_base::{CallState, ErrCode, Phase, Role};

/// The name of a code, where it has one.
pub fn code_name(code: ErrCode) -> Option<&'static str>
    ensures { option_map (λ name. name.now) result ≡ code_name code }
{
    if code == BUSY {
        Some("busy")
    } else if code == FULL {
        Some("full")
    } else if code == DOWN {
        Some("down")
    } else if code == TORN {
        Some("torn")
    } else if code == LABEL {
        Some("label")
    } else if code == SET {
        Some("set")
    } else if code == ROUTE {
        Some("route")
    } else if code == PRIMARY {
        Some("primary")
    } else {
        None
    }
}

/// The word of a call's state.
pub fn state_word(state: CallState) -> &'static str
    ensures { result.now ≡ state_word state }
{
    match state {
        CallState::Asking => "asking",
        CallState::Bare => "bare",
        CallState::Pairing => "pairing",
        CallState::Guarded => "guarded",
        CallState::Turning => "turning",
        CallState::Turned => "turned",
        CallState::Stuck => "stuck",
        CallState::Blocked => "blocked",
    }
}

/// The word of a leg's role.
pub fn role_word(role: Role) -> &'static str
    ensures { result.now ≡ role_word role }
{
    match role {
        Role::Work => "work",
        Role::Back => "back",
    }
}

/// The word of a leg's phase.
pub fn phase_word(phase: Phase) -> &'static str
    ensures { result.now ≡ phase_word phase }
{
    match phase {
        Phase::Asked => "asked",
        Phase::Held => "held",
        Phase::Armed => "armed",
        Phase::Live => "live",
        Phase::Closing => "closing",
        Phase::Falling => "falling",
    }
}

//! The frames that are held and are due.

ghost use Rattle.std.specs.Prelude.{◌≡◌, ◌<◌, OnOk, length, true};
ghost use Rattle.round_rules.specs.Phases.{due_phase};
ghost use Rattle.station.specs.{Fits.{PartsFit, station_state}, Leads.{StationGoesOn, IsSending, StationLeads}, Dues.is_first_due};

use crate::halts::Halt;
use crate::parts::{Parts, enter_frame, is_able_for};
use ason_io::Gate;
use controller::CoreInput;
use round_rules::HeldParcel;
use station_rings::Head;

/// After so many ticks a frame that is held is due.
const TICKS_HELD: u64 = 2;

// Whether the first parcel is due.
fn is_first_due(held: &[HeldParcel]) -> bool
    ensures { result ≡ is_first_due held.now }
{
    match held {
        [] => false,
        [first, ..] => first.ticks >= TICKS_HELD,
    }
}

// The first parcel is let go and delivered. It is lost where memory is wanting.
fn free_first<G: Gate>(parts: &mut Parts, gate: &G) -> Result<(), Halt>
    requires fit { PartsFit parts.old }
    requires due { is_first_due parts.old.held.items ≡ true }
    ensures on { StationGoesOn result due_phase (station_state parts.old) (station_state parts.new) }
    ensures fewer { OnOk result
        (length parts.new.held.items < length parts.old.held.items) }
    ensures sends { IsSending (station_state parts.old) (station_state parts.new) }
    ensures fit { PartsFit parts.new }
{
    if !is_able_for(parts, parts.held[0].parcel.stamp) {
        return Err(Halt::AtLimit);
    }
    let HeldParcel { from, parcel, .. } = parts.held.remove(0);
    let head = Head {
        number: parcel.number,
        stamp: parcel.stamp,
    };
    let input = CoreInput::Frame {
        from,
        bytes: parcel.frame,
    };
    enter_frame(parts, gate, &input, from, head)
}

/// The parcels that are due are let go and delivered, in the order of their taking.
pub(crate) fn free_due<G: Gate>(parts: &mut Parts, gate: &G) -> Result<(), Halt>
    requires fit { PartsFit parts.old }
    ensures on { StationLeads result due_phase (station_state parts.old) (station_state parts.new) }
    ensures sends { IsSending (station_state parts.old) (station_state parts.new) }
    ensures fit { PartsFit parts.new }
{
    'dues: while is_first_due(&parts.held) {
        free_first(parts, gate)?;
    }
    Ok(())
}

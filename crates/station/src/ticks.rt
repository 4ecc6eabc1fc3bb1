//! The tick of a node.

ghost use Rattle.std.specs.{Prelude.{◌≡◌, ◌<◌, ◌+◌, ◌^◌, OnOk, map, if◌then◌else◌}, List.AllByRecursion};
ghost use Rattle.round_rules.specs.{Phases.tick_phase, Stands.parcel_ticked, declared.held.HeldParcel.HeldParcel};
ghost use Rattle.station.specs.{Fits.{PartsFit, station_state}, Leads.{IsSending, StationLeads}};

use crate::halts::Halt;
use crate::parts::{Parts, enter, is_able};
use ason_base::Event;
use ason_io::Gate;
use controller::CoreInput;
use round_rules::HeldParcel;

// Each parcel that is held saw a tick more.
fn age(held: &mut Vec<HeldParcel>)
    requires { AllByRecursion (λ h. h.ticks + 1 < 2 ^ 64) held.old.items }
    ensures { held.new.items ≡ map parcel_ticked held.old.items }
{
    let count = held.len();
    for place in 0..count {
        held[place].ticks += 1;
    }
}

/// The node ticks, where it is to.
pub(crate) fn tick<G: Gate>(parts: &mut Parts, gate: &G, tick: bool) -> Result<(), Halt>
    requires fit { PartsFit parts.old }
    ensures on { StationLeads result (tick_phase tick) (station_state parts.old) (station_state parts.new) }
    ensures held { OnOk result (parts.new.held.items ≡
        (if tick then map parcel_ticked parts.old.held.items else parts.old.held.items)) }
    ensures sends { IsSending (station_state parts.old) (station_state parts.new) }
    ensures fit { PartsFit parts.new }
{
    if !tick {
        return Ok(());
    }
    if !is_able(parts, parts.clock) {
        return Err(Halt::AtLimit);
    }
    let event = Event::Tick { node: parts.me };
    let stamp = parts.clock + 1;
    enter(parts, gate, &CoreInput::Tick, event, stamp)?;
    age(&mut parts.held);
    Ok(())
}

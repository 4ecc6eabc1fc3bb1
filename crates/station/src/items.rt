//! The items of the desk.

ghost use Rattle.std.specs.Prelude.{◌≡◌, ◌<◌, OnOk, length};
ghost use Rattle.ason_base.specs.declared.commands.DeskItem.{DeskItem};
ghost use Rattle.control_channels.specs.declared.inputs.CoreInput.{CoreInput};
ghost use Rattle.round_rules.specs.Phases.{desk_phase};
ghost use Rattle.station.specs.{Desks.DeskSettles, Fits.{PartsFit, station_state}, Leads.{StationGoesOn, IsSending, StationLeads}};

use crate::desks::Desk;
use crate::halts::Halt;
use crate::parts::{Parts, enter, is_able};
use ason_base::Event;
use ason_io::Gate;
use controller::CoreInput;

// Puts the item of this input back to its place, if it was refused.
fn settle(desk: &mut Desk, input: CoreInput, ended: Result<(), Halt>)
    requires { 0 < desk.old.spare }
    ensures { (i : DeskItem) → input ≡ CoreInput.Desk i → DeskSettles ended i desk.old desk.new }
{
    match (ended, input) {
        (Err(_), CoreInput::Desk(item)) => desk.put_back(item),
        _ => {}
    }
}

// The controller handles the first item, which stays on the desk where memory is wanting.
fn handle_first<G: Gate>(parts: &mut Parts, gate: &G) -> Result<(), Halt>
    requires fit { PartsFit parts.old }
    requires some { 0 < length parts.old.desk.items }
    ensures on { StationGoesOn result desk_phase (station_state parts.old) (station_state parts.new) }
    ensures fewer { OnOk result
        (length parts.new.desk.items < length parts.old.desk.items) }
    ensures sends { IsSending (station_state parts.old) (station_state parts.new) }
    ensures fit { PartsFit parts.new }
{
    if !is_able(parts, parts.clock) {
        return Err(Halt::AtLimit);
    }
    let event = Event::Desk { node: parts.me };
    let stamp = parts.clock + 1;
    let input = CoreInput::Desk(parts.desk.pop());
    let ended = enter(parts, gate, &input, event, stamp);
    settle(&mut parts.desk, input, ended);
    ended
}

/// All items of the desk are handled.
pub(crate) fn handle_desk<G: Gate>(parts: &mut Parts, gate: &G) -> Result<(), Halt>
    requires fit { PartsFit parts.old }
    ensures on { StationLeads result desk_phase (station_state parts.old) (station_state parts.new) }
    ensures sends { IsSending (station_state parts.old) (station_state parts.new) }
    ensures fit { PartsFit parts.new }
{
    'items: while parts.desk.len() > 0 {
        handle_first(parts, gate)?;
    }
    Ok(())
}

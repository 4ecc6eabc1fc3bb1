//! Rounds until all is quiet, or whether it is or not.

ghost use Rattle.std.specs.Prelude.{◌≡◌, ◌&&◌, IfErr, List, None, OnOk};
ghost use Rattle.ason_base.specs.{declared.commands.Disturb.Disturb, Network.Network};
ghost use Rattle.fleet.specs.Standing.{StandsFor};
ghost use Rattle.round_rules.specs.{Waiting.is_world_quiet, Records.{Record, world_of}};
ghost use Rattle.ason_main.specs.{Views.StayInView, Running.{CanDo, Does, Stops, rounds_line}};

use crate::runner::crew::Crew;
use crate::runner::stops::Stop;
use ason_io::Gate;
use fleet::Fleet;
use std::sync::Wait;
use std::thread::Threads;

// Whether no more rounds are made: all is quiet, and they are made until it is.
fn rests(fleet: &Fleet, until_quiet: bool) -> bool
    ensures { (t : Network) (lines : List Disturb) (r : Record) → StandsFor t lines fleet.now r →
        result ≡ (until_quiet && is_world_quiet t (world_of t r)) }
{
    if until_quiet { fleet.quiet() } else { false }
}

/// Makes so many rounds; or at most so many, until all is quiet.
pub fn make_rounds<R: Threads + Wait + Sync, G: Gate>(
    crew: &Crew<R, G>,
    fleet: &mut Fleet,
    rounds: u32,
    until_quiet: bool,
) -> Result<(), Stop>
    requires { CanDo fleet.old (rounds_line until_quiet rounds) }
    ensures done { (t : Network) → OnOk result
        (Does t crew.now.workers (rounds_line until_quiet rounds) fleet.old fleet.new None) }
    ensures stops { (t : Network) → IfErr result
        (Stops t crew.now.workers (rounds_line until_quiet rounds) fleet.old fleet.new) }
    ensures views { OnOk result (StayInView fleet.old.stations fleet.new.stations) }
{
    for _made in 0..rounds {
        if rests(fleet, until_quiet) {
            return Ok(());
        }
        crew.round(fleet)?;
    }
    Ok(())
}

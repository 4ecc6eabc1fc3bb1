//! The replay of a list of events.

ghost use Rattle.std.specs.Prelude.{◌≡◌, ℕ, IfErr, IfOk};
ghost use Rattle.world_core.specs.{declared.replays.ReplayError.ReplayError, Replays.{IsFirstDisabled, StateStandsFor}};
ghost use Rattle.world_rules.specs.{WorldRuns.{IsWorldRun, world_after}, Worlds.world_start};

use crate::faults::Fault;
use crate::world::World;
use ason_base::{Event, Topology};
use std::alloc::Global;

/// Why events weren't replayed.
#[derive(Clone, Copy, Drop)]
pub enum ReplayError {
    /// The event with this number, counted from 1, is the first that isn't enabled.
    NotRun(usize),
    OutOfMemory,
}

/// The world to which these events lead, one after the other from the start, if they are a run.
pub fn replay(alloc: Global, t: &Topology, events: &[Event]) -> Result<World, ReplayError>
    ensures run { IfOk result (λ w. IsWorldRun t.now (world_start t.now) events.now) }
    ensures last { IfOk result (λ w. StateStandsFor t.now w (world_after t.now (world_start t.now) events.now)) }
    ensures not_run { IfErr result
        (λ e. (i : ℕ) → e ≡ ReplayError.NotRun i → IsFirstDisabled t.now events.now i) }
{
    let Ok(mut world) = World::new(alloc, t) else {
        return Err(ReplayError::OutOfMemory);
    };
    for (place, event) in events.iter().enumerate() {
        match world.step(alloc, t, event) {
            Ok(()) => {}
            Err(Fault::NotEnabled) => return Err(ReplayError::NotRun(place + 1)),
            Err(Fault::OutOfMemory) => return Err(ReplayError::OutOfMemory),
        }
    }
    Ok(world)
}

//! The migration of a list of events: what of it still is a run.

ghost use Rattle.std.specs.Prelude.{◌≡◌, ◌++◌, ◌∷◌, [], IfOk, OnOk};
ghost use Rattle.world_core.specs.Migration.{AreKept};
ghost use Rattle.world_rules.specs.Worlds.{world_start};

use crate::faults::Fault;
use crate::world::World;
use ason_base::{Copied, Event, Items, OutOfMemory, Topology};
use std::alloc::Global;

/// A list of events.
pub type Events = Items<Event>;

/// The events that were kept, and how many were left out.
pub struct Migrated {
    pub events: Events,
    pub left_out: u64,
}

impl Drop for Migrated {
    fn drop(self) {
        let Migrated {
            events: _,
            left_out: _,
        } = self;
    }
}

// The event is kept too.
fn keep(alloc: Global, kept: &mut Events, event: &Event) -> Result<(), OutOfMemory>
    ensures { OnOk result (kept.new ≡ kept.old ++ event.now ∷ []) }
{
    let event = event.copy(alloc)?;
    kept.push(event)
}

/// Those of these events, in order, that are enabled after the ones kept before. Each other one is left out.
pub fn migrate(alloc: Global, t: &Topology, events: &[Event]) -> Result<Migrated, OutOfMemory>
    ensures kept { IfOk result (λ m. AreKept t.now (world_start t.now) events.now m.events m.left_out) }
{
    let mut world = World::new(alloc, t)?;
    let mut kept = Items::new(alloc);
    let mut left_out = 0;
    for event in events {
        match world.step(alloc, t, event) {
            Ok(()) => keep(alloc, &mut kept, event)?,
            Err(Fault::NotEnabled) => left_out += 1,
            Err(Fault::OutOfMemory) => return Err(OutOfMemory),
        }
    }
    Ok(Migrated {
        events: kept,
        left_out,
    })
}

//! Laws over every run of a world, and over every migration.

ghost use Rattle.world_core.specs.Migration.{AllOfARunAreKept, EveryMigrationIsOne, NoneOfARunIsLeftOut, WhatIsKeptIsARun, WhatIsRefusedIsLeftOut};

pub use world_rules::laws::{controllers_are_the_worlds, every_world_run};

/// What a migration keeps is a run. It leaves out none just where the events are a run, and then it keeps them all. So where a
/// replay tells the first event that isn't enabled, at least one is left out. A list of events has one migration alone.
pub fn every_migration()
    ensures run { WhatIsKeptIsARun }
    ensures none { NoneOfARunIsLeftOut }
    ensures all { AllOfARunAreKept }
    ensures refused { WhatIsRefusedIsLeftOut }
    ensures one { EveryMigrationIsOne }
{}

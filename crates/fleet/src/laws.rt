//! Laws of fleets.

ghost use Rattle.fleet.specs.FleetLaws.{FullIsTheLogs, QuietIsTheWorlds, StandingHasMade, StandingIsARecord};

use world_merge::every_merging;

/// Whatever record a fleet stands for, what its nodes did could happen: its logs and its posts, which are the fleet's
/// own, merge to a run of a world. The log of a node is full where its station's is. Where the desks of a fleet are empty
/// and all that its nodes sent is acknowledged, the whole world is quiet.
pub fn every_fleet()
    ensures record { StandingIsARecord }
    ensures made { StandingHasMade }
    ensures full { FullIsTheLogs }
    ensures quiet { QuietIsTheWorlds }
{
    every_merging();
}

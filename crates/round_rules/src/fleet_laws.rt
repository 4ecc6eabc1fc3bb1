//! Laws of the stations of a fleet.

ghost use Rattle.round_rules.specs.{Commands.{CutRoundsPostNothing, LinesStandFor, NewStationsStand, NoiseIsAStep, NoiseStandsFor, PostsAreSteps, PostsStandFor, RoundsPostNothing}, Gaps.{DeedsAreFew, LimitsAreLogs, PostsStillFollow, StampsAreFew}, RoundLaws.StationsAreARecord, Looks.{KnownHaveBegun, LooksStand, LooksTell}, FleetOneWorker.{LooksGoOn, LooksHadBegun, NodesGoOn, RoundsBegin, RoundsEnd, StationsArePlaced}, Rounding.TurnsMakeARound};

/// Where stations stand for what their nodes did, and what came out of each ring is a first part of what was handed to
/// it, this is a record: its logs, sorted, are a run of a world.
pub fn every_fleet()
    ensures { StationsAreARecord }
{}

/// After looks at rings the stations stand for the same record, and all that was handed to a ring that was looked at is
/// known at its end.
pub fn every_look()
    ensures stands { LooksStand }
    ensures tells { LooksTell }
    ensures begun { KnownHaveBegun }
{}

/// From a fleet in whose rings all is known each station makes its turns, on whatever thread: the stations stand for a
/// record after them. It is a round of the record before where all turns came to their end, and one that a limit ends
/// where some did not. A node left an input just where its turns ended at its limit.
pub fn every_round()
    ensures { TurnsMakeARound }
{}

/// With one worker the stations make their turns one after the other, with a look at a station's rings after its turns,
/// before which one more look would change nothing. The record is then that of a function, node by node, and at last a
/// round, or one that ends at the first node that comes to its limit.
pub fn every_worker()
    ensures begins { RoundsBegin }
    ensures placed { StationsArePlaced }
    ensures node { NodesGoOn }
    ensures looks { LooksGoOn }
    ensures begun { LooksHadBegun }
    ensures ends { RoundsEnd }
{}

/// Each stamp above 1 is one more than another, so no clock is above the number of all that happened at the nodes. So
/// no station lacks a stamp: one that is at its limit has a full log.
pub fn every_clock()
    ensures few { StampsAreFew }
    ensures posts { PostsStillFollow }
    ensures deeds { DeedsAreFew }
    ensures limits { LimitsAreLogs }
{}

/// Stations that are new, at the two ends of new rings, stand for the record in which nothing was done.
pub fn every_start()
    ensures { NewStationsStand }
{}

/// Where a command is posted, the clock of each station goes on to one more than the greatest, and its desk is what the
/// post makes of it: the stations stand for the record with the post at each number, which takes the world where the
/// post takes it. Bytes that spell nothing are one deed more of their receiver, and a line that names a frame is one
/// more of its station. In a round nothing is posted.
pub fn every_command()
    ensures posts { PostsStandFor }
    ensures posted { PostsAreSteps }
    ensures noise { NoiseStandsFor }
    ensures noised { NoiseIsAStep }
    ensures lines { LinesStandFor }
    ensures rounds { RoundsPostNothing }
    ensures cuts { CutRoundsPostNothing }
{}

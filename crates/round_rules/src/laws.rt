//! Laws of records and of turns.

ghost use Rattle.round_rules.specs.{Halts.{HaltsAreLast, TurnsEnd, TurnsHalt, TurnsMakeACutTurn}, RecordLaws.{FunctionsAreTurns, RecordsAreRuns, TurnsMakeATurn}, Rings.StandingIsLeft, Unfinished.StopsLeaveWhatIsAtHand};

/// A record is what each station did. Its logs and its posts, sorted by stamp, are a run of a world, for every
/// schedule. Where the frames that were taken from a ring are the first that were handed to it, the others stand
/// there.
pub fn every_record()
    ensures runs { RecordsAreRuns }
    ensures rings { StandingIsLeft }
{}

/// A turn that is a function of what the node did before, and of the frames that are due and that it pops, is a turn:
/// its tick, the held frames that are due, its desk items, then what it takes (`IsTurnOf`). A turn, and after it one
/// without a tick, are one turn together; so all turns of a node in one round are one, however many the round gives
/// it.
pub fn every_turn()
    ensures function { FunctionsAreTurns }
    ensures together { TurnsMakeATurn }
{}

/// A turn up to a node's limit is the whole turn where it doesn't halt. Where it does, what the node did is a first
/// part of the whole turn, cut at an input that came when the log was full, or no stamp was left; that input is the
/// last of its doings. What it might have popped after that says nothing. Turns and then a cut turn are one cut turn.
/// So the input that a node left, where its limit ends a round, was at hand.
pub fn every_limit()
    ensures ends { TurnsEnd }
    ensures halts { TurnsHalt }
    ensures last { HaltsAreLast }
    ensures together { TurnsMakeACutTurn }
    ensures stops { StopsLeaveWhatIsAtHand }
{}

//! Laws of stations.

ghost use Rattle.station_rings.specs.{Joins.JoinedAreHistories, Stations.{LogsAreCounted, LogsAreFew}, Steps.{FramesAreDeeds, ItemsAreDeeds, ListeningIsNoDeed, NoiseIsADeed, PostsAreDeeds, TicksAreDeeds}};

/// A station is sound by a list of what its node did where it is what the node makes alone by doing this (`IsSound`).
/// A tick, an item, a frame that came from a neighbour, noise and a post are one deed more each; frames that come out
/// of a ring are none. Nothing is asked of other stations, nor of what they do meanwhile. A log has as many lines as
/// its node made events, and 50,000 at most.
pub fn every_event()
    ensures tick { TicksAreDeeds }
    ensures item { ItemsAreDeeds }
    ensures frame { FramesAreDeeds }
    ensures noise { NoiseIsADeed }
    ensures post { PostsAreDeeds }
    ensures listening { ListeningIsNoDeed }
    ensures count { LogsAreCounted }
    ensures few { LogsAreFew }
{}

/// Where each station is sound, and what came out of each ring is a beginning of what the other end's station put
/// into it, all that the stations did could happen, and each frame that was taken had been sent with a lower stamp:
/// so each merge of it is a run of the world.
pub fn every_joining()
    ensures { JoinedAreHistories }
{}

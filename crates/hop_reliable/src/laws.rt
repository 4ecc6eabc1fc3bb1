//! Laws of the hop under every schedule.

ghost use Rattle.hop_reliable.specs.{Ages.Rhythm, Schedules.{HandedUpInOrder, NothingIsLost, SettledIsDelivered, UnackedRise, UnderWayIsWaiting}};

/// Two ends send, tick, and take any frame that the other ever made, in any order, any number of times or never. What each
/// hands up is a prefix of what the other sent, each message once and in order. A message that was sent and not handed up
/// is still unacknowledged at its sender; where none is, all that was sent was handed up. What was sent beyond what was handed
/// up is what waits: just the unacknowledged messages with a number above the last that was handed up. The unacknowledged
/// messages stand in order of number, so a tick sends them again in that order.
pub fn every_schedule()
    ensures in_order { HandedUpInOrder }
    ensures kept { NothingIsLost }
    ensures settled { SettledIsDelivered }
    ensures waiting { UnderWayIsWaiting }
    ensures rising { UnackedRise }
{}

/// A message that isn't acknowledged goes again 1, 3 and 7 ticks after its first sending, then every 60 ticks, without end.
pub fn rhythm()
    ensures { Rhythm }
{}

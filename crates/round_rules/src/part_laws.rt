//! Laws of a station's turn.

ghost use Rattle.round_rules.specs.Parts.{DeliveriesStand, FreeingStands, HoldingStands, ItemsStand, LeavingStands, ListeningStands, LosingStands, NoiseStands, PostsStand, TakingStands, TicksStand};

/// Where a station stands by what its node did (`StandsBy`), each part of a turn makes it stand by one doing more: a
/// tick, an item, a frame that is taken, held, let go, delivered, lost for want of memory, or left at the limit; and
/// frames that come out of a ring are no doing. So do bytes that spell nothing, and a post. The stamps of the deeds are
/// those of the functions of a turn.
pub fn every_part()
    ensures tick { TicksStand }
    ensures item { ItemsStand }
    ensures listening { ListeningStands }
    ensures taking { TakingStands }
    ensures holding { HoldingStands }
    ensures freeing { FreeingStands }
    ensures delivering { DeliveriesStand }
    ensures losing { LosingStands }
    ensures leaving { LeavingStands }
    ensures noise { NoiseStands }
    ensures post { PostsStand }
{}

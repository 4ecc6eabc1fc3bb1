//! Laws over every run of a world.

ghost use Rattle.world_rules.specs.{WorldLaws.{ChannelsHaveTheFrames, EventsAreCounted, EveryImageHasTheLaws, EveryRunIsShown, FloodingIsANetworks, JoinedKnowTheLinks, JoinedKnowTheSame, KnownIsFlooded, KnownIsTrue, NoiseIsNotShown, OnlyNewRowsAreShown, OnlyTheNextIsShown, QuietIsShown, TopologiesFindEach}, Standing.{ChannelsJoinNeighbours, ContentsAreTaken, DeliveriesAreTaken, ItemsAreHandled, NoiseMovesNothing, OthersAreUntouched, TicksAreTicked}};

use flood::laws::{every_flooding, every_start};
use hop_reliable::laws::every_schedule;
use mesh_laws::laws::every_run;
use mesh_nodes::laws::learnt_rows;

/// Where numbers tell links apart, as in every topology, the events of the mesh that a run of a world gives are a run of the
/// mesh, it leads to the image of the last world, and the laws of the mesh hold of it. Noise leaves the image as it was, and so
/// does a packet that isn't the next one of its hop, and a flood message of which nothing is learnt. Where every desk is empty
/// and no message is unacknowledged, nothing is under way in the image. A channel has just the packets that its sender's end of the
/// hop made, and each node makes at most 50,000 events. What a node knows of links is what it floods, and is of the network;
/// where nothing is unacknowledged, nodes of a topology that a walk joins know the same, the rows of all their links among it.
pub fn every_world_run()
    ensures image { EveryRunIsShown }
    ensures topology { TopologiesFindEach }
    ensures noise { NoiseIsNotShown }
    ensures unmoved { OnlyTheNextIsShown }
    ensures known { OnlyNewRowsAreShown }
    ensures quiet { QuietIsShown }
    ensures channels { ChannelsHaveTheFrames }
    ensures counts { EventsAreCounted }
    ensures laws { EveryImageHasTheLaws }
    ensures flooding { FloodingIsANetworks }
    ensures rows { KnownIsFlooded }
    ensures truth { KnownIsTrue }
    ensures same { JoinedKnowTheSame }
    ensures links { JoinedKnowTheLinks }
{
    every_schedule();
    every_run();
    every_start();
    every_flooding();
    learnt_rows();
}

/// A controller that stands for a node of a world stands for it again after the node's next event: it takes what a frame
/// bears, wherever the frame comes from, noise moves nothing, an item of the desk is handled, a tick is a tick. What it sends
/// is what the channels from its node get, in the same order. Nodes that an event isn't of, and the channels from them, stay.
/// Who sends on a channel is a neighbour of who takes from it.
pub fn controllers_are_the_worlds()
    ensures contents { ContentsAreTaken }
    ensures deliveries { DeliveriesAreTaken }
    ensures noise { NoiseMovesNothing }
    ensures items { ItemsAreHandled }
    ensures ticks { TicksAreTicked }
    ensures others { OthersAreUntouched }
    ensures neighbours { ChannelsJoinNeighbours }
{}

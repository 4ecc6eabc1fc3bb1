//! Laws over what happened at the nodes of a network.

ghost use Rattle.world_merge.specs.{Merges.EveryMergeIsARun, Orders.SortingMerges, Picking.PickingSorts, Posts.PostsTellTheRest, Stamps.{SentNow, SentStays}};

/// Each node has a list of what happened there, with stamps. Where each of these was possible with the node alone,
/// and each frame that was taken had been sent with a lower stamp, every merge of the lists by their stamps is a run
/// of the world, in which each node keeps at last what it made alone. So nothing is left of the schedule but the
/// order of stamps. Logs and posts that are sorted by stamp, then node, a post first, are such a merge; and taking
/// the least head of sorted lists, again and again, sorts them so. What is posted and what has failed is the same at
/// every node, since the posts alone tell it.
pub fn every_merge()
    ensures run { EveryMergeIsARun }
    ensures sorted { SortingMerges }
    ensures picked { PickingSorts }
    ensures posts { PostsTellTheRest }
{}

/// The stamp with which a frame was sent is that of the deed that sent it, whatever its node does later.
pub fn every_stamp()
    ensures now { SentNow }
    ensures later { SentStays }
{}

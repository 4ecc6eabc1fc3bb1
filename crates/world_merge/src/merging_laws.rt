//! Laws of the merge of logs.

ghost use Rattle.world_merge.specs.{MergedLogs.EveryMergingMerges, Counts.EveryLineIsMerged};

/// The posts and the logs of the nodes, each list sorted and each log with lines of its own node alone, merge to the
/// one list by stamp, then node, a post first, that has them all. The merge of any lists has as many lines as they.
pub fn every_merging()
    ensures merges { EveryMergingMerges }
    ensures count { EveryLineIsMerged }
{}

//! What holds of each plan.

ghost use Rattle.plan_reader.specs.FoundNames.{EveryNameIsFound, EveryNetworkIsATopology};

/// Law: the network of a plan that bytes spell is a topology. Each node has a name there, and no name is given twice, to
/// nodes or to calls; so each node and each call is found by its name.
pub fn every_plan()
    ensures valid { EveryNetworkIsATopology }
    ensures names { EveryNameIsFound }
{}

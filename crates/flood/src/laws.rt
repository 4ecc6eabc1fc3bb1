//! Laws of floods.

ghost use Rattle.flood.specs.{declared.messages.FloodMsg.FloodMsg, Calls.{AcknowledgedIsOff, DueUntilAcknowledged, GoesToTheOthers, KnownStays, KnownWasBrought, NoneAfterwards}, Ends.{EndsAreListed, EndsStandOnce}, Messages.{CanBeWritten, FitsEnvelope, ReadFloodIsWritable, SpellsFlood, flood_bytes}, NetworkLaws.{DueRises, InEveryRun, JoinedNodesKnowLinks, JoinedNodesKnowSame, KnownCanBeSearched, KnownRowsAreTrue, LinksOfATopology, OneNumberIsOneRow, OwnCanBeDeclared, SentIsKnown, StartIsNew, UnknownIsNew}};

/// What is written of a flood message spells that message.
pub fn floods_come_back()
    ensures { (m : FloodMsg) → CanBeWritten m → FitsEnvelope m → SpellsFlood (flood_bytes m) m }
{}

/// What bytes spell can be written again, by whichever node.
pub fn floods_go_on()
    ensures { ReadFloodIsWritable }
{}

/// After every list of calls at a node: what was known stays known, each known row is one that was declared or received, and
/// a row that is due to a neighbour stays due to it until that neighbour acknowledges it, and is never due to it again. A new
/// row becomes due to each neighbour but the one that it came from.
pub fn every_list_of_calls()
    ensures known { KnownStays }
    ensures brought { KnownWasBrought }
    ensures others { GoesToTheOthers }
    ensures until { DueUntilAcknowledged }
    ensures off { AcknowledgedIsOff }
    ensures never_again { NoneAfterwards }
{}

/// The different ends of rows are just the nodes that are an end of one of them, each once.
pub fn different_ends()
    ensures listed { EndsAreListed }
    ensures once { EndsStandOnce }
{}

/// The nodes of a network declare their own rows and flood them. Whatever messages are lost, repeated or overtaken: what a
/// node knows is a row of the network, and routes can be asked for over it. Who sent a row knows it, and it is new to who
/// takes it where its link isn't known there. What is due stands in order of number, and on one channel one number is one
/// row. Where nothing is due, nodes that a walk joins know the same, the rows of all their links among it.
pub fn every_flooding()
    ensures truth { InEveryRun KnownRowsAreTrue }
    ensures search { InEveryRun KnownCanBeSearched }
    ensures sent { InEveryRun SentIsKnown }
    ensures new { InEveryRun UnknownIsNew }
    ensures rising { InEveryRun DueRises }
    ensures numbers { InEveryRun OneNumberIsOneRow }
    ensures same { InEveryRun JoinedNodesKnowSame }
    ensures links { InEveryRun JoinedNodesKnowLinks }
{}

/// The rows of a topology's links are such as the laws of flooding ask for, and the calls make the start of which they speak:
/// `Flood::new` a node that knows nothing, and `declare`, which is never refused a row of the node's own, the rest.
pub fn every_start()
    ensures topology { LinksOfATopology }
    ensures new { StartIsNew }
    ensures declared { OwnCanBeDeclared }
{}

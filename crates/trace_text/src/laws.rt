//! What is written of a trace is read and checked, bytes are read in one way, and a merge comes as its lines.

ghost use Rattle.trace_text.specs.{Complete.{EveryCheckIsOne, EveryNodeIsNamed, EveryRunIsChecked, EveryScriptPosts}, Merges.EveryMergeComes, RoundTrip.{AllLinesAreRead, EveryLineIsRead, EveryTraceIsRead}, TraceRead.EveryReadingIsOne};

use round_rules::every_record;
use world_rules::every_world_run;

/// Law: the line of an entry says this entry, lines one after the other say their entries, and the text of a trace is
/// read as the plan, the entries and the table. The entries rise, the nodes have names in the plan, and the posts
/// are the commands of the plan's lines, one after the other.
pub fn every_trace()
    ensures line { EveryLineIsRead }
    ensures lines { AllLinesAreRead }
    ensures trace { EveryTraceIsRead }
{}

/// Law: bytes are read as one trace alone, or with one first wrong index or one first fault of their plan, want of
/// memory aside.
pub fn every_reading()
    ensures { EveryReadingIsOne }
{}

/// Law: bytes are checked with one answer alone, want of memory aside. So they are the trace of a run of their plan
/// with that run's table, or of version 1 and migrated to this run, just where `check` says so, or could for want of
/// memory.
pub fn every_check()
    ensures { EveryCheckIsOne }
{
    every_world_run();
}

/// Law: each node of a plan that is spelled has a name by which it is found, and what its script has posted are the
/// first commands of its lines. The trace that is written of what the nodes of such a plan did is the trace of a run:
/// its entries are the merge of logs and posts, the first commands of the plan's lines were posted, and the table is
/// the last one. Numbers are those of their types.
pub fn every_checked()
    ensures named { EveryNodeIsNamed }
    ensures posts { EveryScriptPosts }
    ensures run { EveryRunIsChecked }
{
    every_record();
}

/// Law: what comes of a merge of logs, to its end, are the lines that it has left.
pub fn every_merge()
    ensures { EveryMergeComes }
{}

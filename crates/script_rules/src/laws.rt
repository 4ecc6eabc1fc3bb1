//! Laws of scripts.

ghost use Rattle.script_rules.specs.ScriptLaws.{FailLinesFail, FailuresAreRestored, LinesFollow, OneWorkerIsAFunction, OneWorkerIsAlone, PostsFollowLines, RecordsAreLawful, ScriptsGrow, StopsAreFull};

use round_laws::{every_failure, every_round_in_order};
use round_rules::every_record;
use world_merge::every_merging;
use world_rules::every_world_run;

/// Each stage of a script is a record of what the nodes did. Over a topology each merge of its logs and posts is a run
/// of a world, of which each first part has the laws of the mesh; and there is one. From stage to stage logs and posts
/// grow at their ends, and what is posted follows the lines; where the run is stopped the log of the node is full. With
/// one worker there is one list of stages, which ends where a function leads, and one text. Of a `fail` line with
/// nothing but `settle`, `wait` and `show` behind it (`fails`), where the network was calm and quiet: as long as rounds
/// lose, hold back and drop no frame that was sent since, each guarded call that is hit is restored in as many rounds as
/// its routes are long; and with one worker in one for each hop of its backup, one, and one for each hop to the nearest
/// cut on which a Notify goes up to a node of a lesser number (`restored`).
pub fn every_script()
    ensures lawful { RecordsAreLawful }
    ensures follow { LinesFollow }
    ensures alone { OneWorkerIsAlone }
    ensures function { OneWorkerIsAFunction }
    ensures grow { ScriptsGrow }
    ensures posts { PostsFollowLines }
    ensures full { StopsAreFull }
    ensures restored { FailuresAreRestored }
    ensures fails { FailLinesFail }
{
    every_world_run();
    every_record();
    every_merging();
    every_failure();
    every_round_in_order();
}

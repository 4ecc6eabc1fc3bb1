//! The laws on which a run rests.

ghost use Rattle.ason_main.specs.RunLaws.{RunLaws};

use fleet::every_fleet;
use round_rules::every_command;
use script_rules::every_script;

/// The laws of fleets, of rounds and of scripts.
pub fn every_law()
    ensures { RunLaws }
{
    every_fleet();
    every_command();
    every_script();
}

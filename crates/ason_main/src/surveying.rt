//! Runs a plan, and tells what fails together in its last table, and which calls would contend.

ghost use Rattle.std.specs.{Prelude.{◌≡◌, ◌≤◌, ◌↔◌, ◌&&◌, ◌++◌, List, [], IfErr, IfOk, IsTrue, OnOk, flat_map, string_bytes}, Io.KnownBytes.Appends};
ghost use Rattle.ason_base.specs.{Network.Network, declared.commands.Disturb.Disturb};
ghost use Rattle.round_rules.specs.Records.{Record, new_record, world_of};
ghost use Rattle.fleet.specs.Standing.{StandsFor};
ghost use Rattle.plan_reader.specs.Plans.{ArePostable};
ghost use Rattle.table_text.specs.SurveyText.{contend_line};
ghost use Rattle.ason_main.specs.Surveys.{IsCalmWorld, StopsSurvey, TellsSurvey, TellsTheSurvey};

use crate::host::Host;
use crate::laws::every_law;
use crate::runner::run::{Ran, run_plan};
use crate::runner::stops::Stop;
use crate::tables::table_of;
use ason_base::{LegRow, OutOfMemory};
use ason_io::{Gate, Sink};
use commands::calm::are_reserved;
use fleet::Fleet;
use mesh_laws::no_contend;
use plan_reader::Plan;
use std::alloc::Global;
use std::sync::Wait;
use std::thread::Threads;
use survey::{Contends, survey};
use table_text::{push_contends, survey_start};

fn are_all(quiet: bool, unfailed: bool, reserved: bool) -> bool
    ensures { result ≡ (quiet && (unfailed && reserved)) }
{
    quiet && unfailed && reserved
}

// Whether nothing waits, no group has failed, and each backup's leg is Asked or Held.
fn is_calm(fleet: &Fleet, legs: &[LegRow]) -> bool
    ensures { (t : Network) (lines : List Disturb) (r : Record) → StandsFor t lines fleet.now r →
        IsTrue result ↔ IsCalmWorld (world_of t r) legs.now }
{
    every_law();
    let quiet = fleet.quiet();
    let unfailed = fleet.unfailed();
    let reserved = are_reserved(legs);
    are_all(quiet, unfailed, reserved)
}

// Adds a line for each two calls that would contend. One list of them is held at a time.
fn push_lists(
    alloc: Global,
    text: &mut String,
    plan: &Plan,
    contends: &Contends,
) -> Result<(), OutOfMemory>
    ensures { OnOk result (string_bytes text.new ≡ string_bytes text.old
        ++ flat_map (contend_line plan.now) (flat_map (λ list. list) contends.now)) }
{
    for place in 0..contends.len() {
        let list = contends.list(alloc, place)?;
        push_contends(text, plan, &list)?;
    }
    Ok(())
}

// What is told of the fleet's table.
fn told(alloc: Global, plan: &Plan, fleet: &Fleet) -> Result<Vec<u8>, OutOfMemory>
    ensures { IfOk result (λ text. TellsSurvey plan.now fleet.now text.items) }
{
    let rows = table_of(alloc, fleet)?;
    let survey = survey(alloc, &plan.topology, &rows)?;
    let calm = is_calm(fleet, rows.legs.items());
    let mut text = survey_start(alloc, plan, calm, survey.hits.items())?;
    push_lists(alloc, &mut text, plan, &survey.contends)?;
    Ok(text.into_bytes())
}

/// Runs the plan as `run` does, writes nothing of it, and tells the survey of its last table.
pub fn survey_of<R: Threads + Wait + Sync, K: Sink, G: Gate>(
    host: &Host<R, G>,
    plan: &Plan,
    fleet: &mut Fleet,
    out: &mut K,
) -> Result<Vec<u8>, Stop>
    requires new { StandsFor plan.now.topology [] fleet.old new_record }
    requires postable { ArePostable plan.now.topology [] plan.now.lines }
    ensures done { IfOk result (λ text. TellsTheSurvey plan.now fleet.new text.items) }
    ensures stops { IfErr result (StopsSurvey plan.now fleet.new) }
    ensures written { Appends (K.written out.old) (K.written out.new) [] }
    ensures rises { K.faults out.old ≤ K.faults out.new }
{
    every_law();
    no_contend();
    match run_plan(
        host.rt, host.alloc, fleet, plan, 1, 1, false, out, host.gate, None,
    ) {
        Ran::Ended => {
            let text = told(host.alloc, plan, fleet)?;
            Ok(text)
        }
        Ran::AtLimit(node) => Err(Stop::AtLimit(node)),
        // Nothing is written of the run.
        Ran::Failed => unreachable!(),
        Ran::OutOfMemory => Err(Stop::OutOfMemory),
    }
}

//! Checks that a trace is that of a run of its plan, and migrates one of version 1.

ghost use Rattle.std.specs.Prelude.{◌≡◌, IfErr, IfOk, bytes_eq, false, true};
ghost use Rattle.ason_base.specs.Network.{IsTopology};
ghost use Rattle.plan_reader.specs.Plans.{HasNames};
ghost use Rattle.script_rules.specs.Tables.{IsTable};
ghost use Rattle.table_text.specs.TableText.{table_text};
ghost use Rattle.trace_text.specs.{Checks.{AreChecked, IsFoundRun, AreMigrated, ChecksAs, IsFaultBy, IsFoundAfter, IsWrongAfter, IsWrongLine, replay_fault}, LinesRead.lines_now, TraceForms.{is_version_2, lines_behind}};
ghost use Rattle.world_core.specs.Replays.{IsFirstDisabled};
ghost use Rattle.world_merge.specs.Merges.{events_of};
ghost use Rattle.world_rules.specs.{Images.image, WorldRuns.{IsWorldRun, world_after}, Worlds.world_start};

use crate::forms::{head_of, lines_behind, of_lines, plan_of, table_of};
use crate::read::TraceFault;
use crate::reading::ReadLines;
use ason_base::{Entry, Event, OutOfMemory, TableRows, Topology};
use plan_reader::Plan;
use script_rules::sort_rows;
use std::alloc::Global;
use table_text::write_table;
use world_core::{ReplayError, migrate, replay};

/// What is told of a trace: its version, how many events its run has, how many of the trace are left out of it, the
/// plan, and the rows of the run's table. In version 2 none is left out.
pub struct Checked {
    pub version: u8,
    pub events: u64,
    pub left_out: u64,
    pub plan: Plan,
    pub rows: TableRows,
}

impl Drop for Checked {
    fn drop(self) {
        let Checked {
            version: _,
            events: _,
            left_out: _,
            plan: _,
            rows: _,
        } = self;
    }
}

/// What is found of the lines of a trace: how many events their run has, how many are left out of it, and the rows of
/// its table.
#[derive(Drop)]
pub struct FoundRun {
    pub events: u64,
    pub left_out: u64,
    pub rows: TableRows,
}

impl From<ReplayError> for TraceFault {
    ghost use Rattle.trace_text.specs.Checks.{replay_fault};

    ghost from_gives = { λ error fault. fault ≡ replay_fault error };

    fn from(error: ReplayError) -> TraceFault {
        match error {
            ReplayError::NotRun(i) => TraceFault::NotRun(i as u64),
            ReplayError::OutOfMemory => TraceFault::OutOfMemory,
        }
    }
}

fn events_of(alloc: Global, entries: Vec<Entry>) -> Result<Vec<Event>, OutOfMemory>
    ensures { IfOk result (λ es. es.items ≡ events_of entries.items) }
{
    let mut events = Vec::new(alloc);
    for entry in entries {
        events.push(entry.event)?;
    }
    Ok(events)
}

// The rows of the world to which the events lead, if they are a run.
fn last_rows(alloc: Global, t: &Topology, events: &[Event]) -> Result<TableRows, TraceFault>
    ensures run { IfOk result (λ rows. IsWorldRun t.now (world_start t.now) events.now) }
    ensures table { IfOk result (λ rows.
        IsTable t.now (image (world_after t.now (world_start t.now) events.now)) rows) }
    ensures not_run { IfErr result (IsFaultBy (IsFirstDisabled t.now events.now)) }
{
    let world = replay(alloc, t, events)?;
    let rows = sort_rows(world.rows(alloc)?)?;
    Ok(rows)
}

// Whether this is the text of the table of these rows.
fn is_table(alloc: Global, plan: &Plan, rows: &TableRows, text: &[u8]) -> Result<bool, OutOfMemory>
    ensures { IfOk result (λ b. b ≡ bytes_eq text.now (table_text plan.now rows.now)) }
{
    let mut own = Vec::new(alloc);
    write_table(alloc, &mut own, plan, rows)?;
    Ok(text == own.as_slice())
}

// The run of the lines of version 2: all their events, if these are a run and its table follows.
fn checked_run<'a>(alloc: Global, plan: &Plan, read: ReadLines<'a>) -> Result<FoundRun, TraceFault>
    ensures run { IfOk result (AreChecked plan.now (lines_now read.entry)) }
    ensures wrong { IfErr result (IsFaultBy (IsWrongLine true plan.now (lines_now read.entry))) }
{
    let ReadLines {
        entries,
        wrong,
        rest,
    } = read;
    let events = events_of(alloc, entries)?;
    let rows = last_rows(alloc, &plan.topology, &events)?;
    if let Some(i) = wrong {
        return Err(TraceFault::NotRun(i));
    }
    let count = events.len() as u64;
    let Some(table) = table_of(rest) else {
        return Err(TraceFault::NotRun(count + 1));
    };
    if !is_table(alloc, plan, &rows, table)? {
        return Err(TraceFault::NotRun(count + 1));
    }
    Ok(FoundRun {
        events: count,
        left_out: 0,
        rows,
    })
}

// The run of the lines of version 1: the events that are enabled after those kept before them.
fn migrated_run<'a>(alloc: Global, plan: &Plan, read: ReadLines<'a>) -> Result<FoundRun, TraceFault>
    ensures run { IfOk result (AreMigrated plan.now (lines_now read.entry)) }
    ensures wrong { IfErr result (IsFaultBy (IsWrongLine false plan.now (lines_now read.entry))) }
{
    let form = match of_lines(read) {
        Ok(form) => form,
        Err(i) => return Err(TraceFault::NotRun(i)),
    };
    let events = events_of(alloc, form.entries)?;
    let migrated = migrate(alloc, &plan.topology, &events)?;
    let rows = last_rows(alloc, &plan.topology, migrated.events.items())?;
    Ok(FoundRun {
        events: migrated.events.items().len() as u64,
        left_out: migrated.left_out,
        rows,
    })
}

// The run of the lines of a trace of this version.
fn check_lines<'a>(
    alloc: Global,
    version: u8,
    plan: &Plan,
    read: ReadLines<'a>,
) -> Result<FoundRun, TraceFault>
    ensures run { IfOk result (IsFoundRun (is_version_2 version) plan.now (lines_now read.entry)) }
    ensures wrong { IfErr result
        (IsFaultBy (IsWrongLine (is_version_2 version) plan.now (lines_now read.entry))) }
{
    if version == 2 {
        checked_run(alloc, plan, read)
    } else {
        migrated_run(alloc, plan, read)
    }
}

// What is found of what is behind a plan.
fn check_behind(
    alloc: Global,
    version: u8,
    plan: &Plan,
    rest: &[u8],
) -> Result<FoundRun, TraceFault>
    ensures run { IfOk result
        (IsFoundAfter (is_version_2 version) plan.now (lines_behind plan.now rest.now)) }
    ensures wrong { IfErr result
        (IsFaultBy (IsWrongAfter (is_version_2 version) plan.now (lines_behind plan.now rest.now))) }
{
    let Some(read) = lines_behind(alloc, plan, rest)? else {
        return Err(TraceFault::NotRun(0));
    };
    check_lines(alloc, version, plan, read)
}

/// Checks that the bytes are the trace of a run of their plan, with the table of the world to which the run leads. The
/// fault is the first index that is wrong: 0 for the head and the line that tells how many events there are, an
/// event's number from 1 for a line that isn't of the form or whose event isn't enabled, or one more than there are
/// events for what follows them. A fault of the plan comes before whatever is wrong behind the plan.
///
/// A trace of version 1 is migrated: of its events those are kept that are enabled after the ones kept before them, and
/// its table may be any lines. So an index that is wrong is one of its form alone.
pub fn check(alloc: Global, bytes: &[u8]) -> Result<Checked, TraceFault>
    ensures checks { ChecksAs bytes.now result }
    ensures valid { IfOk result (λ c. IsTopology c.plan.topology) }
    ensures named { IfOk result (λ c. HasNames c.plan) }
{
    let Some(head) = head_of(bytes) else {
        return Err(TraceFault::NotRun(0));
    };
    let plan = plan_of(alloc, head.version, head.plan)?;
    let found = check_behind(alloc, head.version, &plan, head.rest)?;
    Ok(Checked {
        version: head.version,
        events: found.events,
        left_out: found.left_out,
        plan,
        rows: found.rows,
    })
}

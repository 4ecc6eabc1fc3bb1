//! The parts of a generated script.

ghost use Rattle.std.specs.Prelude.{◌≡◌, ◌≤◌, ◌%◌, [], IfOk};
ghost use Rattle.ason_base.specs.{declared.limits.TheConstants.{MOST_CALLS, MOST_NODES}, Network.IsTopology};
ghost use Rattle.plan_reader.specs.Plans.{ArePostable, HasNames};
ghost use Rattle.load_plan.specs.LoadParts.{AreAlwaysPostable, group_lines, load_parts_of, load_plan_of, reverted_lines};

use crate::draws::Draws;
use crate::names::{Named, names};
use crate::network::topology;
use crate::setups::{ROUNDS, setups};
use ason_base::{Command, Group, OutOfMemory, Topology};
use mesh_rules::commands::has_group;
use plan_reader::{Line, Lines, Plan};
use std::alloc::Global;

/// The group that fails and is repaired.
const GROUP: Group = Group::Srlg(1);

/// The rounds in which calls go back to their working LSPs, more than a call waits.
const WAITED: u32 = 5;

/// A generated plan and what is done after it. A line is printed after each of the four parts.
pub struct LoadParts {
    /// The network, the names, and the lines that set the calls up.
    pub plan: Plan,
    /// The lines that fail the SRLG 1. None, where no link has it.
    pub failed: Lines,
    /// The lines that repair it.
    pub repaired: Lines,
    /// The lines that wait until the calls are back.
    pub reverted: Lines,
}

impl Drop for LoadParts {
    fn drop(self) {
        let LoadParts {
            plan: _,
            failed: _,
            repaired: _,
            reverted: _,
        } = self;
    }
}

// The command and a settle, where some link has the group; else nothing.
fn group_lines(alloc: Global, t: &Topology, command: Command) -> Result<Lines, OutOfMemory>
    ensures { IfOk result (λ lines. lines ≡ group_lines t.now command) }
{
    let mut lines = Lines::new(alloc);
    if has_group(t, GROUP) {
        lines.push(Line::Post(command))?;
        lines.push(Line::Settle(ROUNDS))?;
    }
    Ok(lines)
}

fn reverted_lines(alloc: Global) -> Result<Lines, OutOfMemory>
    ensures { IfOk result (λ lines. lines ≡ reverted_lines) }
{
    let mut lines = Lines::new(alloc);
    lines.push(Line::Wait(WAITED))?;
    lines.push(Line::Settle(ROUNDS))?;
    Ok(lines)
}

fn load_plan(alloc: Global, seed: u64, nodes: u32, calls: u32) -> Result<Plan, OutOfMemory>
    requires least { 4 ≤ nodes }
    requires most { nodes ≤ MOST_NODES }
    requires few { calls ≤ MOST_CALLS }
    ensures { IfOk result (λ p. p ≡ load_plan_of seed nodes calls) }
{
    let mut draws = Draws::new(seed);
    let topology = topology(alloc, nodes, &mut draws)?;
    let lines = setups(alloc, nodes, calls, &mut draws)?;
    let node_names = names(alloc, Named::Node, nodes)?;
    let call_names = names(alloc, Named::Call, calls)?;
    Ok(Plan {
        topology,
        node_names,
        call_names,
        lines,
    })
}

/// The plan that is drawn from a seed, with the further parts of its script. It has 4 to 64 nodes, an even
/// number, and 1 to 4,096 calls.
pub fn load_parts(
    alloc: Global,
    seed: u64,
    nodes: u32,
    calls: u32,
) -> Result<LoadParts, OutOfMemory>
    requires even { nodes % 2 ≡ 0 }
    requires least { 4 ≤ nodes }
    requires most { nodes ≤ MOST_NODES }
    requires some { 1 ≤ calls }
    requires few { calls ≤ MOST_CALLS }
    ensures exact { IfOk result (λ l. l ≡ load_parts_of seed nodes calls) }
    ensures valid { IfOk result (λ l. IsTopology l.plan.topology) }
    ensures named { IfOk result (λ l. HasNames l.plan) }
    ensures built { IfOk result (λ l. ArePostable l.plan.topology [] l.plan.lines) }
    ensures failed { IfOk result (λ l. AreAlwaysPostable l.plan.topology l.failed) }
    ensures repaired { IfOk result (λ l. AreAlwaysPostable l.plan.topology l.repaired) }
    ensures reverted { IfOk result (λ l. AreAlwaysPostable l.plan.topology l.reverted) }
{
    let plan = load_plan(alloc, seed, nodes, calls)?;
    let failed = group_lines(alloc, &plan.topology, Command::Fail { group: GROUP })?;
    let repaired = group_lines(alloc, &plan.topology, Command::Repair { group: GROUP })?;
    let reverted = reverted_lines(alloc)?;
    Ok(LoadParts {
        plan,
        failed,
        repaired,
        reverted,
    })
}

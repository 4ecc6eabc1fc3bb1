//! A plan as a whole.

ghost use Rattle.std.specs.Prelude.{◌≡◌, ◌≤◌, codes, false, length, true, [], IfOk, IsTrue, Ok, Err};
ghost use Rattle.toml.specs.View.{view};
ghost use Rattle.ason_base.specs.Network.{IsTopology};
ghost use Rattle.plan_reader.specs.{Entries.FailsAs, PlanTables.{elements_at, has_top_counts, ticks_of}, Plans.{Answers, ArePostable, HasNames, IsPlanOf, IsPlanOfParts, IsPlanOver, network_of}, declared.faults.PlanError.PlanError};

use crate::faults::{EntryError, PlanEntry, PlanError, PlanKind, error_at};
use crate::limits::MOST_LINES;
use crate::links::read_links;
use crate::nodes::{Nodes, read_nodes};
use crate::plan::Plan;
use crate::script::read_script;
use crate::top::{ticks, top_kind};
use crate::values::elements;
use ason_base::{LinkSpec, OutOfMemory, Topology, TopologyFault};
use std::alloc::Global;
use toml::Value;

// The topology of the nodes and links that were read, with this wait.
fn topology(
    alloc: Global,
    wait: u32,
    known: &Nodes,
    links: &[LinkSpec],
) -> Result<Topology, OutOfMemory>
    requires { IsTopology (network_of wait known.now links.now) }
    ensures value { IfOk result (λ t. t ≡ network_of wait known.now links.now) }
    ensures valid { IfOk result (λ t. IsTopology t) }
{
    match Topology::new(alloc, wait, known.nodes(), links) {
        Ok(topology) => Ok(topology),
        Err(TopologyFault::OutOfMemory) => Err(OutOfMemory),
        Err(_) => unreachable!(),
    }
}

// The plan over these nodes and links, or its first fault.
fn read_over(
    alloc: Global,
    value: &Value,
    known: Nodes,
    links: &[LinkSpec],
    two_way: bool,
) -> Result<Plan, PlanError>
    requires few { length (elements_at (codes "script") (view value.now)) ≤ MOST_LINES }
    requires sound { IsTopology (network_of (ticks_of (view value.now)) known links.now) }
    ensures plan { IfOk result (λ p. IsPlanOver two_way (view value.now) known links.now (Ok p)) }
    ensures valid { IfOk result (λ p. IsTopology p.topology) }
    ensures fault { FailsAs result (λ f. IsPlanOver two_way (view value.now) known links.now (Err f)) }
{
    let topology = topology(alloc, ticks(value), &known, links)?;
    let lines = elements(value, "script");
    let script = read_script(alloc, &topology, known.names(), lines, two_way)?;
    Ok(Plan {
        topology,
        node_names: known.into_names(),
        call_names: script.calls.into_names(),
        lines: script.lines,
    })
}

// The plan of a table whose top has no fault, or its first fault.
fn read_parts(alloc: Global, value: &Value, two_way: bool) -> Result<Plan, PlanError>
    requires { IsTrue (has_top_counts (view value.now)) }
    ensures plan { IfOk result (λ p. IsPlanOfParts two_way (view value.now) (Ok p)) }
    ensures valid { IfOk result (λ p. IsTopology p.topology) }
    ensures fault { FailsAs result (λ f. IsPlanOfParts two_way (view value.now) (Err f)) }
{
    let nodes = read_nodes(alloc, elements(value, "node"))?;
    let links = read_links(alloc, &nodes, elements(value, "link"))?;
    read_over(alloc, value, nodes, &links, two_way)
}

fn read_table(alloc: Global, value: &Value, two_way: bool) -> Result<Plan, PlanError>
    ensures plan { IfOk result (λ p. IsPlanOf two_way (view value.now) (Ok p)) }
    ensures valid { IfOk result (λ p. IsTopology p.topology) }
    ensures fault { FailsAs result (λ f. IsPlanOf two_way (view value.now) (Err f)) }
{
    if let Some(kind) = top_kind(value) {
        return Err(error_at(PlanEntry::Top, EntryError::Fault(kind)));
    }
    read_parts(alloc, value, two_way)
}

// The plan that the bytes spell, in which setups may be two-way, or not.
fn read(alloc: Global, bytes: &[u8], two_way: bool) -> Result<Plan, PlanError>
    ensures plan { Answers two_way bytes.now result }
    ensures valid { IfOk result (λ p. IsTopology p.topology) }
    ensures postable { IfOk result (λ p. ArePostable p.topology [] p.lines) }
    ensures named { IfOk result (λ p. HasNames p) }
{
    match toml::table_from_slice(alloc, bytes) {
        Ok(table) => read_table(alloc, &Value::Table(table), two_way),
        Err(e) if e.is_memory() => Err(PlanError::OutOfMemory),
        Err(_) => Err(error_at(PlanEntry::Toml, EntryError::Fault(PlanKind::Syntax))),
    }
}

/// Reads a plan from TOML. A fault is the first: the text, the top table, then the nodes, the links and the script's lines,
/// each in order.
pub fn read_plan(alloc: Global, bytes: &[u8]) -> Result<Plan, PlanError>
    ensures plan { Answers true bytes.now result }
    ensures valid { IfOk result (λ p. IsTopology p.topology) }
    ensures postable { IfOk result (λ p. ArePostable p.topology [] p.lines) }
    ensures named { IfOk result (λ p. HasNames p) }
{
    read(alloc, bytes, true)
}

/// Reads a plan from before there were two-way setups: the same, but that no setup line has the word `both`.
pub fn read_plan_1(alloc: Global, bytes: &[u8]) -> Result<Plan, PlanError>
    ensures plan { Answers false bytes.now result }
    ensures valid { IfOk result (λ p. IsTopology p.topology) }
    ensures postable { IfOk result (λ p. ArePostable p.topology [] p.lines) }
    ensures named { IfOk result (λ p. HasNames p) }
{
    read(alloc, bytes, false)
}

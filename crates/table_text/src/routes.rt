//! The least route between two nodes of a plan, its backup, and each node's potential, as text.

ghost use Rattle.std.specs.{Prelude.{◌≡◌, ◌++◌, [], codes, IfOk, OnOk, string_bytes}, List.flat_map};
ghost use Rattle.ason_base.specs.{Network.IsTopology, Texts.Appends};
ghost use Rattle.table_text.specs.RouteText.{found_text, links_text, more_link, node_line, potential_in, potential_text, potentials_text, primary_line, route_line, route_text, routes_text};

use crate::ends::{ends_fault_text, ends_of};
use crate::table::node_name;
use ason_base::network::rows_of;
use ason_base::{NodeId, NodeSpec, OutOfMemory, Step};
use plan_reader::Plan;
use route_least::{Found, RouteNetwork};
use route_pair::{Pair, PairFault, pair_in};
use std::alloc::Global;

/// What is told of the routes between the nodes of these names over the plan's links: the first name that the plan
/// doesn't have; or that both are the same node; or the least route, the least one that is risk-disjoint from it and
/// shares no inner node with it, and the least cost of a walk from the first node to each node.
pub fn route_text(alloc: Global, plan: &Plan, from: &str, to: &str) -> Result<Vec<u8>, OutOfMemory>
    requires { IsTopology plan.now.topology }
    ensures { IfOk result (λ text. text.items ≡ route_text plan.now from.now to.now) }
{
    let told = told(alloc, plan, from, to)?;
    Ok(told.into_bytes())
}

fn told(alloc: Global, plan: &Plan, from: &str, to: &str) -> Result<String, OutOfMemory>
    requires { IsTopology plan.now.topology }
    ensures { IfOk result (λ text. string_bytes text ≡ route_text plan.now from.now to.now) }
{
    match ends_of(plan, from, to) {
        Ok((start, end)) => between(alloc, plan, start, end),
        Err(fault) => ends_fault_text(alloc, from, to, fault),
    }
}

// The pair of routes, searched in one network that is prepared from the rows.
fn between(alloc: Global, plan: &Plan, from: NodeId, to: NodeId) -> Result<String, OutOfMemory>
    requires { IsTopology plan.now.topology }
    ensures { IfOk result (λ text. string_bytes text ≡ routes_text plan.now from to) }
{
    let rows = rows_of(alloc, plan.topology.links())?;
    let network = RouteNetwork::new(alloc, &rows)?;
    match pair_in(alloc, &network, &rows, from, to) {
        Ok(pair) => both_told(alloc, plan, &pair),
        Err(PairFault::NoPrimary(potential)) => none_told(alloc, plan, potential.items()),
        Err(PairFault::NoBackup(primary)) => primary_told(alloc, plan, &primary),
        Err(PairFault::OutOfMemory) => Err(OutOfMemory),
    }
}

// Each has the potentials of the search for the primary route.

fn both_told(alloc: Global, plan: &Plan, pair: &Pair) -> Result<String, OutOfMemory>
    ensures { IfOk result (λ text. string_bytes text ≡ found_text plan.now
        (primary_line pair.now.primary.route pair.now.primary.cost
        ++ route_line (codes "backup") pair.now.backup.route pair.now.backup.cost)
        pair.now.primary.potential) }
{
    let mut text = String::new(alloc);
    push_route(
        &mut text,
        "primary",
        pair.primary.route.items(),
        pair.primary.cost,
    )?;
    push_route(
        &mut text,
        "backup",
        pair.backup.route.items(),
        pair.backup.cost,
    )?;
    push_potentials(&mut text, plan, pair.primary.potential.items())?;
    Ok(text)
}

fn primary_told(alloc: Global, plan: &Plan, primary: &Found) -> Result<String, OutOfMemory>
    ensures { IfOk result (λ text. string_bytes text ≡ found_text plan.now
        (primary_line primary.now.route primary.now.cost ++ codes "no backup\n")
        primary.now.potential) }
{
    let mut text = String::new(alloc);
    push_route(&mut text, "primary", primary.route.items(), primary.cost)?;
    text.push_str("no backup\n")?;
    push_potentials(&mut text, plan, primary.potential.items())?;
    Ok(text)
}

fn none_told(
    alloc: Global,
    plan: &Plan,
    potentials: &[(NodeId, u32)],
) -> Result<String, OutOfMemory>
    ensures { IfOk result (λ text. string_bytes text ≡
        found_text plan.now (codes "no primary\n") potentials.now) }
{
    let mut text = String::from_str(alloc, "no primary\n")?;
    push_potentials(&mut text, plan, potentials)?;
    Ok(text)
}

/// The line of a route of this cost.
pub(crate) fn push_route(
    text: &mut String,
    word: &str,
    steps: &[Step],
    cost: u32,
) -> Result<(), OutOfMemory>
    ensures { OnOk result (Appends text.old text.new (route_line word.now steps.now cost)) }
{
    write!(text, "{word} {cost} ")?;
    push_links(text, steps)?;
    text.push_str("\n")?;
    Ok(())
}

/// Appends the steps' links, with commas between them.
pub fn push_links(text: &mut String, steps: &[Step]) -> Result<(), OutOfMemory>
    ensures { OnOk result (Appends text.old text.new (links_text steps.now)) }
{
    match steps {
        [] => Ok(()),
        [first, others @ ..] => {
            write!(text, "{}", first.link.0)?;
            push_more(text, others)
        }
    }
}

// Each link with a comma in front.
fn push_more(text: &mut String, steps: &[Step]) -> Result<(), OutOfMemory>
    ensures { OnOk result (Appends text.old text.new (flat_map more_link steps.now)) }
{
    for step in steps {
        write!(text, ",{}", step.link.0)?;
    }
    Ok(())
}

fn push_potentials(
    text: &mut String,
    plan: &Plan,
    potentials: &[(NodeId, u32)],
) -> Result<(), OutOfMemory>
    ensures { OnOk result
        (Appends text.old text.new (potentials_text plan.now (potential_in potentials.now))) }
{
    for node in plan.topology.nodes() {
        push_node(text, plan, potentials, node)?;
    }
    Ok(())
}

#[tactic(auto, unfolding(crate::specs::RouteText::node_line))]
fn push_node(
    text: &mut String,
    plan: &Plan,
    potentials: &[(NodeId, u32)],
    node: &NodeSpec,
) -> Result<(), OutOfMemory>
    ensures { OnOk result
        (Appends text.old text.new (node_line plan.now (potential_in potentials.now) node.now)) }
{
    push_potential(text, plan, node.id, potential_in(potentials, node.id))
}

fn push_potential(
    text: &mut String,
    plan: &Plan,
    node: NodeId,
    cost: Option<u32>,
) -> Result<(), OutOfMemory>
    ensures { OnOk result (Appends text.old text.new (potential_text plan.now node cost)) }
{
    let name = node_name(plan, node);
    match cost {
        None => write!(text, "potential {name} -\n")?,
        Some(cost) => write!(text, "potential {name} {cost}\n")?,
    }
    Ok(())
}

fn potential_in(potentials: &[(NodeId, u32)], node: NodeId) -> Option<u32>
    ensures { result ≡ potential_in potentials.now node }
{
    potentials
        .iter()
        .find(|entry| entry.0 == node)
        .map(|entry| entry.1)
}

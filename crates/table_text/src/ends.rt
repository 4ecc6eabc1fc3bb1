//! The two nodes of a plan that two names ask for.

ghost use Rattle.std.specs.Prelude.{◌≡◌, IfOk, string_bytes};
ghost use Rattle.table_text.specs.EndsText.{ends_fault_text, ends_of, no_node_text, plan_node};

use ason_base::{NodeId, OutOfMemory};
use plan_reader::{Plan, node_named};
use std::alloc::Global;

/// Why two names don't tell two nodes.
#[derive(Clone, Copy, Drop)]
pub(crate) enum EndsFault {
    /// No node has the first name.
    NoFrom,
    /// No node has the second name, and one has the first.
    NoTo,
    /// Both are the same node.
    Same,
}

/// The nodes of these names.
pub(crate) fn ends_of(plan: &Plan, from: &str, to: &str) -> Result<(NodeId, NodeId), EndsFault>
    ensures { result ≡ ends_of plan.now from.now to.now }
{
    let start = node_of_name(plan, from).ok_or(EndsFault::NoFrom)?;
    let end = node_of_name(plan, to).ok_or(EndsFault::NoTo)?;
    if start == end {
        return Err(EndsFault::Same);
    }
    Ok((start, end))
}

/// The node of this name, if the plan has one.
pub fn node_of_name(plan: &Plan, name: &str) -> Option<NodeId>
    ensures { result ≡ plan_node plan.now name.now }
{
    node_named(&plan.node_names, plan.topology.nodes(), name.as_bytes())
}

/// What is told of names that aren't those of two nodes.
pub(crate) fn ends_fault_text(
    alloc: Global,
    from: &str,
    to: &str,
    fault: EndsFault,
) -> Result<String, OutOfMemory>
    ensures { IfOk result (λ text. string_bytes text ≡ ends_fault_text from.now to.now fault) }
{
    match fault {
        EndsFault::NoFrom => no_node_text(alloc, from),
        EndsFault::NoTo => no_node_text(alloc, to),
        EndsFault::Same => {
            let text = String::from_str(alloc, "same node\n")?;
            Ok(text)
        }
    }
}

/// What is told of a name that no node has.
pub(crate) fn no_node_text(alloc: Global, name: &str) -> Result<String, OutOfMemory>
    ensures { IfOk result (λ text. string_bytes text ≡ no_node_text name.now) }
{
    let text = format!(in alloc; "no node {name}\n")?;
    Ok(text)
}

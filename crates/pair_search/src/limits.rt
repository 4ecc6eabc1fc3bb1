//! How large a network may be for a search through its routes.

ghost use Rattle.std.specs.{Prelude.{◌≡◌, ◌==◌, false, true, IfOk, OnOk}, List.list_any};
ghost use Rattle.pair_search.specs.{Answers.IsSmall, Searches.{ends_of, with_end_node}};

use ason_base::{NodeId, OutOfMemory, TeRow};
use std::alloc::Global;

/// The most rows of a network.
const MOST_ROWS: usize = 24;

/// The most nodes that are ends of its rows.
const MOST_ENDS: usize = 16;

/// Whether there are at most 24 rows, with at most 16 nodes as their ends.
pub(crate) fn is_small(alloc: Global, rows: &[TeRow]) -> Result<bool, OutOfMemory>
    ensures small { IfOk result (λ b. b ≡ true → IsSmall rows.now) }
    ensures large { IfOk result (λ b. b ≡ false → ¬ IsSmall rows.now) }
{
    if rows.len() > MOST_ROWS {
        return Ok(false);
    }
    let ends = ends_of(alloc, rows)?;
    Ok(ends.len() <= MOST_ENDS)
}

// Each node once that is an end of a row.
#[tactic(auto, using(std::proofs::lemmas::List::Sums::fold_more))]
fn ends_of(alloc: Global, rows: &[TeRow]) -> Result<Vec<NodeId>, OutOfMemory>
    ensures { IfOk result (λ ends. ends.items ≡ ends_of rows.now) }
{
    let mut ends = Vec::new(alloc);
    for row in rows {
        add_end(&mut ends, row.low)?;
        add_end(&mut ends, row.high)?;
    }
    Ok(ends)
}

fn add_end(ends: &mut Vec<NodeId>, node: NodeId) -> Result<(), OutOfMemory>
    ensures { OnOk result (ends.new.items ≡ with_end_node ends.old.items node) }
{
    if has_node(ends, node) {
        return Ok(());
    }
    ends.push(node)?;
    Ok(())
}

fn has_node(nodes: &[NodeId], node: NodeId) -> bool
    ensures { result ≡ list_any (λ m. m.0 == node.0) nodes.now }
{
    nodes.iter().any(|other| *other == node)
}

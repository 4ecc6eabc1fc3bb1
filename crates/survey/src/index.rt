//! The rows of legs, found by their LSP.

ghost use Rattle.std.specs.Prelude.{◌≡◌, ◌++◌, List, [], ◌∷◌, IfOk, OnOk, filter};
ghost use Rattle.ason_base.specs.{Lsps.is_lsp, declared.calls.LegRow.LegRow};
ghost use Rattle.survey.specs.Index.{AddsRow, IsLegIndexOf, rows_at};

use ason_base::{Items, LegRow, LegRows, Lsp, OutOfMemory};
use std::alloc::Global;
use std::collections::BTreeMap;

/// The rows of each LSP.
pub(crate) type LegIndex = BTreeMap<Lsp, LegRows>;

fn rows_at(index: &LegIndex, lsp: Lsp) -> &[LegRow]
    ensures { result.now ≡ rows_at index.now lsp }
{
    match index.get(&lsp) {
        None => &[],
        Some(rows) => rows.items(),
    }
}

// These rows, and the row behind them.
fn with_row(alloc: Global, rows: &[LegRow], row: &LegRow) -> Result<LegRows, OutOfMemory>
    ensures { IfOk result (λ more. more ≡ rows.now ++ row.now ∷ []) }
{
    let mut more = Vec::from_slice(alloc, rows)?;
    more.push(*row)?;
    Ok(Items::from_vec(more))
}

// Adds a row behind those of its LSP, of which there is at most one a node.
fn add_row(alloc: Global, index: &mut LegIndex, row: &LegRow) -> Result<(), OutOfMemory>
    ensures { OnOk result (AddsRow row.now index.old index.new) }
{
    let rows = with_row(alloc, rows_at(index, row.lsp), row)?;
    index.insert(row.lsp, rows)?;
    Ok(())
}

/// The index of these rows.
pub(crate) fn index_of(alloc: Global, legs: &[LegRow]) -> Result<LegIndex, OutOfMemory>
    ensures { IfOk result (λ index. IsLegIndexOf legs.now index) }
{
    let mut index = BTreeMap::new(alloc);
    for row in legs {
        add_row(alloc, &mut index, row)?;
    }
    Ok(index)
}

/// The rows of the LSP, where one is wanted.
pub(crate) fn rows_of_lsp(index: &LegIndex, wanted: Option<Lsp>) -> &[LegRow]
    ensures { (legs : List LegRow) → IsLegIndexOf legs index.now
        → result.now ≡ filter (λ r. is_lsp wanted r.lsp) legs }
{
    match wanted {
        None => &[],
        Some(lsp) => rows_at(index, lsp),
    }
}

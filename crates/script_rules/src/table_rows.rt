//! The rows of all nodes in the order of the table.

ghost use Rattle.std.specs.{Prelude.IfOk, List.Sorted.{IsPermutation, IsSortedBy}};
ghost use Rattle.script_rules.specs.Tables.{call_before, leg_before};

use ason_base::{CallRows, LegRows, OutOfMemory, TableRows};

/// Puts calls in order of number, those of one number in order of ingress, and legs in order of LSP, those of one LSP
/// in order of node.
pub fn sort_rows(rows: TableRows) -> Result<TableRows, OutOfMemory>
    ensures same_calls { IfOk result (λ sorted. IsPermutation rows.calls sorted.calls) }
    ensures calls { IfOk result (λ sorted. IsSortedBy call_before sorted.calls) }
    ensures same_legs { IfOk result (λ sorted. IsPermutation rows.legs sorted.legs) }
    ensures legs { IfOk result (λ sorted. IsSortedBy leg_before sorted.legs) }
{
    let TableRows { calls, legs } = rows;
    let calls = sort_calls(calls)?;
    let legs = sort_legs(legs)?;
    Ok(TableRows { calls, legs })
}

fn sort_calls(rows: CallRows) -> Result<CallRows, OutOfMemory>
    ensures same { IfOk result (λ sorted. IsPermutation rows sorted) }
    ensures sorted { IfOk result (λ sorted. IsSortedBy call_before sorted) }
{
    let mut calls = rows.into_vec();
    calls.sort_by_key(|call| (call.call, call.ingress))?;
    Ok(CallRows::from_vec(calls))
}

fn sort_legs(rows: LegRows) -> Result<LegRows, OutOfMemory>
    ensures same { IfOk result (λ sorted. IsPermutation rows sorted) }
    ensures sorted { IfOk result (λ sorted. IsSortedBy leg_before sorted) }
{
    let mut legs = rows.into_vec();
    legs.sort_by_key(|leg| (leg.lsp, leg.node))?;
    Ok(LegRows::from_vec(legs))
}

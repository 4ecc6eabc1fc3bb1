//! The table of a fleet.

ghost use Rattle.std.specs.Prelude.{IfOk};
ghost use Rattle.ason_main.specs.Running.{IsFleetTable};

use ason_base::{OutOfMemory, TableRows};
use fleet::Fleet;
use script_rules::sort_rows;
use std::alloc::Global;

/// The rows of all nodes, in the order of the table.
pub fn table_of(alloc: Global, fleet: &Fleet) -> Result<TableRows, OutOfMemory>
    ensures { IfOk result (λ rows. IsFleetTable fleet.now rows) }
{
    let unsorted = fleet.rows(alloc)?;
    let sorted = sort_rows(unsorted)?;
    Ok(sorted)
}

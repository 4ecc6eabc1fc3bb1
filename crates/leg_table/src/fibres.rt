//! Lists of fibres, each once.

ghost use Rattle.std.specs.Prelude.{◌≡◌, OnErr, OnOk};
ghost use Rattle.mesh_rules.specs.Reports.{with_fibre};

use ason_base::{Fibre, Fibres, OutOfMemory};

/// Adds the fibre, unless it is there. After want of memory nothing has changed.
pub fn add_fibre(fibres: &mut Fibres, f: Fibre) -> Result<(), OutOfMemory>
    ensures ok { OnOk result (fibres.new ≡ with_fibre f fibres.old) }
    ensures err { OnErr result (fibres.new ≡ fibres.old) }
{
    if fibres.has(f) {
        return Ok(());
    }
    fibres.push(f)
}

//! The fleet that is kept.

ghost use Rattle.std.specs.Prelude.{◌≡◌, None, Some};

use fleet::Fleet;

/// Keeps the fleet that made a run, where none is kept yet.
pub fn keep(kept: &mut Option<Fleet>, fleet: Fleet)
    requires { kept.old ≡ None }
    ensures { kept.new ≡ Some fleet }
{
    match kept.replace(fleet) {
        None => {}
        Some(_) => unreachable!(),
    }
}

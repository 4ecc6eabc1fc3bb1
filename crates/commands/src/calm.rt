//! Whether the backups of a table stand by.

ghost use Rattle.std.specs.{Prelude.◌≡◌, List.list_all};
ghost use Rattle.mesh_laws.specs.SurveyLaw.{is_reserved_row};

use ason_base::{LegRow, Phase, Role};

fn is_reserved_row(row: &LegRow) -> bool
    ensures { result ≡ is_reserved_row row.now }
{
    row.role == Role::Work || matches!(row.phase, Phase::Asked | Phase::Held)
}

/// Whether each backup's leg is Asked or Held.
pub fn are_reserved(legs: &[LegRow]) -> bool
    ensures { result ≡ list_all is_reserved_row legs.now }
{
    legs.iter().all(|row| is_reserved_row(row))
}

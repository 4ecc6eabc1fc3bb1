//! What the LSP of a Path is for.

ghost use Rattle.std.specs.Prelude.{◌≡◌};
ghost use Rattle.mesh_rules.specs.Paths.{is_active};

use ason_base::PathRole;

/// Whether a Path with this role activates a backup.
pub fn is_active(role: &PathRole) -> bool
    ensures { result ≡ is_active role.now }
{
    match role {
        PathRole::Work { .. } => false,
        PathRole::Back { active, .. } => *active,
    }
}

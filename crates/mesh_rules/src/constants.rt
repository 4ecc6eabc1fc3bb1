//! The numbers that definitions take from constants.

ghost use Rattle.std.specs.Prelude.{◌≡◌};
ghost use Rattle.mesh_rules.specs.declared.limits.TheConstants.{LAST_NUMBER, MOST_LEGS, MOST_LINKS_OF_ROUTE};

/// Law: a node keeps at most 4,096 legs, a route has at most 63 links, and the last number of an LSP is 65,535.
pub fn limits()
    ensures legs { MOST_LEGS ≡ 4096 }
    ensures links { MOST_LINKS_OF_ROUTE ≡ 63 }
    ensures last { LAST_NUMBER ≡ 65535 }
{}

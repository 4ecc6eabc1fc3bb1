//! The numbers that definitions take from constants.

ghost use Rattle.std.specs.Prelude.{◌≡◌};
ghost use Rattle.wire_buf.specs.declared.routes.TheConstants.{STEP, STRICT_UNNUMBERED};

/// Law: a strict unnumbered step is of type 4 and takes 12 bytes (RFC 3477, section 4).
pub fn routes()
    ensures kind { STRICT_UNNUMBERED ≡ 4 }
    ensures size { STEP ≡ 12 }
{}

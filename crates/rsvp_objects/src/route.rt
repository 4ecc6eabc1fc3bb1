//! EXPLICIT_ROUTE (RFC 3209, section 4.3), of unnumbered interfaces (RFC 3477, section 4).

ghost use Rattle.std.specs.Prelude.{◌≤◌, length};
ghost use Rattle.ason_base.specs.declared.limits.TheConstants.{MOST_STEPS};
ghost use Rattle.wire_buf.specs.{Codecs.{AppendsBytes, Decodes}, Objects.object, Routes.{IsRoute, route_bytes}};

use ason_base::{DecodeError, OutOfMemory, Steps};
use std::alloc::Global;
use wire_buf::{read_steps, write_steps};

/// The route of an EXPLICIT_ROUTE's body. NotMessage exactly where the body isn't 1 to 64 steps.
pub fn read_route(alloc: Global, body: &[u8]) -> Result<Steps, DecodeError>
    ensures { Decodes (IsRoute body.now) result }
{
    read_steps(alloc, body)
}

/// Appends the EXPLICIT_ROUTE object.
pub fn write_route(out: &mut Vec<u8>, x: &Steps) -> Result<(), OutOfMemory>
    requires some { 1 ≤ length x.now }
    requires few { length x.now ≤ MOST_STEPS }
    ensures { AppendsBytes out.old out.new (object 20 1 (route_bytes x.now)) result }
{
    write_steps(out, 20, 1, x)
}

//! The header of RSVP's objects (RFC 2205, section 3.1.2).

ghost use Rattle.std.specs.Prelude.{◌≡◌, ◌≤◌, ◌+◌, ◌++◌, vec_len, vec_capacity};
ghost use Rattle.wire_buf.specs.Objects.{header};

use crate::pushes::{put_u8, put_u16};

/// Appends an object's header in the room that is reserved. The length counts the header too.
pub fn put_header(out: &mut Vec<u8>, len: u16, class: u8, ctype: u8)
    requires { vec_len out.old + 4 ≤ vec_capacity out.old }
    ensures items { out.new.items ≡ out.old.items ++ header len class ctype }
    ensures len { vec_len out.new ≡ vec_len out.old + 4 }
    ensures capacity { vec_capacity out.old ≤ vec_capacity out.new }
{
    put_u16(out, len);
    put_u8(out, class);
    put_u8(out, ctype);
}

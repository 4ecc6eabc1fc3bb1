//! What a Path's LSP is for (RFC 4872, sections 14 to 16).

ghost use Rattle.std.specs.Prelude.{◌≡◌, ◌++◌, OnOk};
ghost use Rattle.wire_buf.specs.{Codecs.{Decodes, Reads}, Routes.IsRoute};
ghost use Rattle.rsvp_messages.specs.{Messages.{HasProtection, HasRole, Ties}, Parts.HasOne, Seen.all_seen, Written.{all_bytes, protection_of, role_objects}};
ghost use Rattle.ason_base.specs.Writable.{IsWritableRole};

use crate::classes::{ASSOCIATION, PRIMARY_PATH_ROUTE, PROTECTION};
use crate::lookup::{one, optional};
use crate::object_table::Objects;
use ason_base::{DecodeError, Lsp, OutOfMemory, PathRole, Steps};
use rsvp_objects::{
    Association, Protection, read_association, read_primary, read_protection, write_association,
    write_primary,
};
use std::alloc::Global;

/// The C-Type of PROTECTION for end-to-end recovery.
const LSP_FLAGS: u8 = 2;

/// The C-Type of ASSOCIATION and PRIMARY_PATH_ROUTE.
const IPV4: u8 = 1;

/// The type of an association of recovery.
const RECOVERY: u16 = 1;

fn protection(objects: &Objects) -> Option<Protection>
    ensures { Reads (HasProtection (all_seen objects.now)) result }
{
    match optional(objects, PROTECTION, LSP_FLAGS)? {
        None => Some(Protection::Work { guard: false }),
        Some(body) => read_protection(body),
    }
}

// The number of the LSP that the backup is for.
fn tied(objects: &Objects) -> Option<u16>
    ensures { Reads (λ work. HasOne 199 1 (Ties work) (all_seen objects.now)) result }
{
    let body = one(objects, ASSOCIATION, IPV4)?;
    let association = read_association(body)?;
    if association.kind == RECOVERY {
        Some(association.id)
    } else {
        None
    }
}

fn primary(alloc: Global, objects: &Objects) -> Result<Steps, DecodeError>
    ensures { Decodes (λ route. HasOne 38 1 (λ body. IsRoute body route)
        (all_seen objects.now)) result }
{
    match one(objects, PRIMARY_PATH_ROUTE, IPV4) {
        Some(body) => read_primary(alloc, body),
        None => Err(DecodeError::NotMessage),
    }
}

/// What the LSP is for. NotMessage exactly where the objects tell nothing.
pub(crate) fn role(alloc: Global, objects: &Objects) -> Result<PathRole, DecodeError>
    ensures { Decodes (HasRole (all_seen objects.now)) result }
{
    let active = match protection(objects) {
        Some(Protection::Back { active }) => active,
        Some(Protection::Work { guard }) => return Ok(PathRole::Work { guard }),
        None => return Err(DecodeError::NotMessage),
    };
    let Some(work) = tied(objects) else {
        return Err(DecodeError::NotMessage);
    };
    let primary = primary(alloc, objects)?;
    Ok(PathRole::Back {
        active,
        work,
        primary,
    })
}

/// The protection of an LSP of this role.
pub(crate) fn protection_of(role: &PathRole) -> Protection
    ensures { result ≡ protection_of role.now }
{
    match role {
        PathRole::Work { guard } => Protection::Work { guard: *guard },
        PathRole::Back { active, .. } => Protection::Back { active: *active },
    }
}

/// Appends a backup's ASSOCIATION and PRIMARY_PATH_ROUTE, and nothing for a working LSP.
pub(crate) fn write_role(out: &mut Vec<u8>, lsp: &Lsp, role: &PathRole) -> Result<(), OutOfMemory>
    requires { IsWritableRole role.now }
    ensures { OnOk result (out.new.items ≡ out.old.items ++ all_bytes
        (role_objects lsp.now role.now)) }
{
    match role {
        PathRole::Work { .. } => Ok(()),
        PathRole::Back { work, primary, .. } => {
            let association = Association {
                kind: RECOVERY,
                id: *work,
                source: lsp.ingress.0,
            };
            write_association(out, &association)?;
            write_primary(out, primary)
        }
    }
}

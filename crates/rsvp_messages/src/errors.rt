//! PathErr (RFC 2205, section 3.1.8; RFC 3473, section 4.4) and Notify (RFC 3473, section 4.3).

ghost use Rattle.std.specs.Prelude.{◌≡◌, ◌++◌, Some, OnOk};
ghost use Rattle.wire_buf.specs.Codecs.{Reads};
ghost use Rattle.rsvp_objects.specs.Bodies.{IsError};
ghost use Rattle.rsvp_messages.specs.{Messages.{HasError, is_removed}, Packets.SpellsTyped, Parts.HasOne, Seen.all_seen, Written.{all_bytes, bytes_of, error_object, flags_of, notify_objects, path_err_objects}};

use crate::classes::{ERROR_SPEC, SENDER_TEMPLATE};
use crate::fields::{read_subject, write_lsp_sender, write_lsp_session};
use crate::lookup::one;
use crate::object_table::Objects;
use ason_base::{ErrCode, LinkId, Lsp, Msg, NodeId, OutOfMemory};
use rsvp_objects::{ErrorSpec, read_error, read_error_ipv4, write_error};

/// The C-Types of an ERROR_SPEC without an interface and with one.
const IPV4: u8 = 1;

const IF_ID: u8 = 3;

/// The flag Path_State_Removed (RFC 3473, section 4.4).
const PATH_STATE_REMOVED: u8 = 0x04;

// The error of an ERROR_SPEC with an interface.
fn error_with_interface(objects: &Objects) -> Option<ErrorSpec>
    ensures { Reads (λ e. HasOne 6 3 (λ body. IsError body e) (all_seen objects.now)) result }
{
    let body = one(objects, ERROR_SPEC, IF_ID)?;
    read_error(body)
}

fn error(objects: &Objects) -> Option<ErrorSpec>
    ensures { Reads (HasError (all_seen objects.now)) result }
{
    match one(objects, ERROR_SPEC, IPV4) {
        Some(body) => read_error_ipv4(body),
        None => error_with_interface(objects),
    }
}

fn is_removed(e: &ErrorSpec) -> bool
    ensures { result ≡ is_removed e.now }
{
    e.flags / 4 % 2 == 1
}

/// The PathErr that the objects spell. None exactly where they spell none.
pub(crate) fn read_path_err(objects: &Objects) -> Option<Msg>
    ensures { Reads (SpellsTyped 3 (all_seen objects.now)) result }
{
    let subject = read_subject(objects, SENDER_TEMPLATE)?;
    let error = error(objects)?;
    Some(Msg::PathErr {
        lsp: subject.lsp,
        egress: subject.egress,
        at: error.node,
        removed: is_removed(&error),
        code: error.code,
    })
}

/// The Notify that the objects spell. None exactly where they spell none.
pub(crate) fn read_notify(objects: &Objects) -> Option<Msg>
    ensures { Reads (SpellsTyped 21 (all_seen objects.now)) result }
{
    let subject = read_subject(objects, SENDER_TEMPLATE)?;
    let error = error_with_interface(objects)?;
    let link = error.link?;
    Some(Msg::Notify {
        lsp: subject.lsp,
        egress: subject.egress,
        at: error.node,
        link,
        code: error.code,
    })
}

fn flags_of(removed: bool) -> u8
    ensures { result ≡ flags_of removed }
{
    if removed { PATH_STATE_REMOVED } else { 0 }
}

fn write_error_of(
    out: &mut Vec<u8>,
    at: NodeId,
    removed: bool,
    code: ErrCode,
    link: Option<LinkId>,
) -> Result<(), OutOfMemory>
    ensures { OnOk result (out.new.items ≡ out.old.items ++ bytes_of
        (error_object at (flags_of removed) code link)) }
{
    let error = ErrorSpec {
        node: at,
        flags: flags_of(removed),
        code,
        link,
    };
    write_error(out, &error)
}

/// Appends the objects of a PathErr.
pub(crate) fn write_path_err(
    out: &mut Vec<u8>,
    lsp: &Lsp,
    egress: NodeId,
    at: NodeId,
    removed: bool,
    code: ErrCode,
) -> Result<(), OutOfMemory>
    ensures { OnOk result (out.new.items ≡ out.old.items ++ all_bytes
        (path_err_objects lsp.now egress at removed code)) }
{
    write_lsp_session(out, lsp, egress)?;
    write_error_of(out, at, removed, code, None)?;
    write_lsp_sender(out, lsp)
}

/// Appends the objects of a Notify.
pub(crate) fn write_notify(
    out: &mut Vec<u8>,
    lsp: &Lsp,
    egress: NodeId,
    at: NodeId,
    link: LinkId,
    code: ErrCode,
) -> Result<(), OutOfMemory>
    ensures { OnOk result (out.new.items ≡ out.old.items ++ all_bytes
        (notify_objects lsp.now egress at link code)) }
{
    write_error_of(out, at, false, code, Some(link))?;
    write_lsp_session(out, lsp, egress)?;
    write_lsp_sender(out, lsp)
}

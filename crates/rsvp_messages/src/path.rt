//! Path (RFC 2205, section 3.1.3; RFC 3209; RFC 3473; RFC 4872).

ghost use Rattle.std.specs.Prelude.{◌≡◌, ◌≤◌, ◌++◌, Some, false, length, IsTrue, OnOk};
ghost use Rattle.ason_base.specs.declared.limits.TheConstants.{MOST_STEPS};
ghost use Rattle.wire_buf.specs.Codecs.{Decodes, Reads};
ghost use Rattle.rsvp_objects.specs.Bodies.{IsLabel, IsRequest};
ghost use Rattle.rsvp_messages.specs.{Messages.{HasRoute, SpellsHead}, Packets.SpellsTyped, Parts.{HasAtMostOne, HasOne}, Seen.all_seen, Written.{all_bytes, bytes_of, path_end, path_head, protection_object, request_objects, route_objects, set_object, upstream_objects}};

use crate::classes::{EXPLICIT_ROUTE, LABEL_REQUEST, SENDER_TEMPLATE, UPSTREAM_LABEL};
use crate::fields::{Subject, link, read_subject, write_link, write_lsp_sender, write_lsp_session};
use crate::fixed::{write_sender_tspec, write_time_values};
use crate::label_sets::label_set;
use crate::lookup::{one, optional};
use crate::object_table::Objects;
use crate::roles::{protection_of, role};
use ason_base::{
    DecodeError, Label, LabelSet, LinkId, Lsp, Msg, NodeId, OutOfMemory, PathRole, Steps,
};
use rsvp_objects::{
    LabelRequest, LabelSetObject, read_request, read_route, read_upstream, write_label_set,
    write_protection, write_request, write_route, write_upstream,
};
use std::alloc::Global;

/// The C-Type of a generalized LABEL_REQUEST.
const GENERALIZED_REQUEST: u8 = 4;

/// The C-Type of a generalized UPSTREAM_LABEL.
const GENERALIZED: u8 = 2;

/// The C-Type of an EXPLICIT_ROUTE.
const EXPLICIT: u8 = 1;

fn requests(objects: &Objects) -> bool
    ensures yes { IsTrue result → HasOne 19 4 IsRequest (all_seen objects.now) }
    ensures no { result ≡ false → ¬ HasOne 19 4 IsRequest (all_seen objects.now) }
{
    match one(objects, LABEL_REQUEST, GENERALIZED_REQUEST) {
        Some(body) => read_request(body).is_some(),
        None => false,
    }
}

fn upstream(objects: &Objects) -> Option<Option<Label>>
    ensures { Reads (HasAtMostOne 35 2 IsLabel (all_seen objects.now)) result }
{
    match optional(objects, UPSTREAM_LABEL, GENERALIZED)? {
        None => Some(None),
        Some(body) => Some(Some(read_upstream(body)?)),
    }
}

fn route(alloc: Global, objects: &Objects) -> Result<Steps, DecodeError>
    ensures { Decodes (HasRoute (all_seen objects.now)) result }
{
    match optional(objects, EXPLICIT_ROUTE, EXPLICIT) {
        Some(Some(body)) => read_route(alloc, body),
        Some(None) => Ok(Steps::new(alloc)),
        None => Err(DecodeError::NotMessage),
    }
}

/// The parts of a Path that aren't lists.
#[derive(Clone, Copy)]
struct Head {
    subject: Subject,
    link: LinkId,
    upstream: Option<Label>,
}

fn read_head(objects: &Objects) -> Option<Head>
    ensures { Reads
        (λ h. SpellsHead
        (all_seen objects.now) h.subject.lsp h.subject.egress h.link h.upstream) result }
{
    if !requests(objects) {
        return None;
    }
    let subject = read_subject(objects, SENDER_TEMPLATE)?;
    let link = link(objects)?;
    let upstream = upstream(objects)?;
    Some(Head {
        subject,
        link,
        upstream,
    })
}

/// The Path that the objects spell. NotMessage exactly where they spell none.
pub(crate) fn read_path(alloc: Global, objects: &Objects) -> Result<Msg, DecodeError>
    ensures { Decodes (SpellsTyped 1 (all_seen objects.now)) result }
{
    let Some(head) = read_head(objects) else {
        return Err(DecodeError::NotMessage);
    };
    let route = route(alloc, objects)?;
    let set = label_set(alloc, objects)?;
    let role = role(alloc, objects)?;
    Ok(Msg::Path {
        lsp: head.subject.lsp,
        egress: head.subject.egress,
        link: head.link,
        route,
        set,
        upstream: head.upstream,
        role,
    })
}

/// Appends what stands before the route in a Path.
pub(crate) fn write_path_head(
    out: &mut Vec<u8>,
    sender: NodeId,
    lsp: &Lsp,
    egress: NodeId,
    link: LinkId,
) -> Result<(), OutOfMemory>
    ensures { OnOk result (out.new.items ≡ out.old.items ++ all_bytes
        (path_head sender lsp.now egress link)) }
{
    write_lsp_session(out, lsp, egress)?;
    write_link(out, sender, link)?;
    write_time_values(out)
}

/// Appends the EXPLICIT_ROUTE of a route that isn't empty.
pub(crate) fn write_path_route(out: &mut Vec<u8>, route: &Steps) -> Result<(), OutOfMemory>
    requires { length route.now ≤ MOST_STEPS }
    ensures { OnOk result (out.new.items ≡ out.old.items ++ all_bytes (route_objects route.now)) }
{
    if route.items().is_empty() {
        Ok(())
    } else {
        write_route(out, route)
    }
}

fn write_path_upstream(out: &mut Vec<u8>, upstream: Option<Label>) -> Result<(), OutOfMemory>
    ensures { OnOk result (out.new.items ≡ out.old.items ++ all_bytes (upstream_objects upstream)) }
{
    match upstream {
        Some(label) => write_upstream(out, &label),
        None => Ok(()),
    }
}

fn write_protection_of(out: &mut Vec<u8>, role: &PathRole) -> Result<(), OutOfMemory>
    ensures { OnOk result (out.new.items ≡ out.old.items ++ bytes_of (protection_object role.now)) }
{
    write_protection(out, &protection_of(role))
}

fn write_set(out: &mut Vec<u8>, set: &LabelSet) -> Result<(), OutOfMemory>
    ensures { OnOk result (out.new.items ≡ out.old.items ++ bytes_of (set_object set.now)) }
{
    let labels = LabelSetObject {
        include: true,
        labels: set.copy(),
    };
    write_label_set(out, &labels)
}

/// Appends what stands behind the route in a Path, as far as its role.
pub(crate) fn write_path_request(
    out: &mut Vec<u8>,
    set: &LabelSet,
    role: &PathRole,
) -> Result<(), OutOfMemory>
    ensures { OnOk result (out.new.items ≡ out.old.items ++ all_bytes
        (request_objects set.now role.now)) }
{
    write_request(out, &LabelRequest)?;
    write_protection_of(out, role)?;
    write_set(out, set)
}

/// Appends the end of a Path.
pub(crate) fn write_path_end(
    out: &mut Vec<u8>,
    lsp: &Lsp,
    upstream: Option<Label>,
) -> Result<(), OutOfMemory>
    ensures { OnOk result (out.new.items ≡ out.old.items ++ all_bytes (path_end lsp.now upstream)) }
{
    write_lsp_sender(out, lsp)?;
    write_sender_tspec(out)?;
    write_path_upstream(out, upstream)
}

//! Resv (RFC 2205, section 3.1.4; RFC 3473, section 2.3).

ghost use Rattle.std.specs.Prelude.{◌≡◌, ◌++◌, Some, OnOk};
ghost use Rattle.ason_base.specs.declared.messages.Msg.{Msg};
ghost use Rattle.wire_buf.specs.Codecs.{Reads};
ghost use Rattle.rsvp_objects.specs.Bodies.{IsLabel};
ghost use Rattle.rsvp_messages.specs.{Packets.SpellsTyped, Parts.HasOne, Seen.all_seen, Written.{all_bytes, msg_objects}};

use crate::classes::{FILTER_SPEC, LABEL};
use crate::fields::{link, read_subject, write_link, write_lsp_filter, write_lsp_session};
use crate::fixed::{write_flowspec, write_style, write_time_values};
use crate::lookup::one;
use crate::object_table::Objects;
use ason_base::{Label, LinkId, Lsp, Msg, NodeId, OutOfMemory};
use rsvp_objects::{read_label, write_label};

/// The C-Type of a generalized label.
const GENERALIZED: u8 = 2;

fn label(objects: &Objects) -> Option<Label>
    ensures { Reads (λ l. HasOne 16 2 (λ body. IsLabel body l) (all_seen objects.now)) result }
{
    let body = one(objects, LABEL, GENERALIZED)?;
    read_label(body)
}

/// The Resv that the objects spell. None exactly where they spell none.
pub(crate) fn read_resv(objects: &Objects) -> Option<Msg>
    ensures { Reads (SpellsTyped 2 (all_seen objects.now)) result }
{
    let subject = read_subject(objects, FILTER_SPEC)?;
    let link = link(objects)?;
    let label = label(objects)?;
    Some(Msg::Resv {
        lsp: subject.lsp,
        egress: subject.egress,
        link,
        label,
    })
}

/// Appends the objects of a Resv.
pub(crate) fn write_resv(
    out: &mut Vec<u8>,
    sender: NodeId,
    lsp: &Lsp,
    egress: NodeId,
    link: LinkId,
    label: &Label,
) -> Result<(), OutOfMemory>
    ensures { OnOk result (out.new.items ≡ out.old.items ++ all_bytes
        (msg_objects sender (Msg.Resv lsp.now egress link label.now))) }
{
    write_lsp_session(out, lsp, egress)?;
    write_link(out, sender, link)?;
    write_time_values(out)?;
    write_style(out)?;
    write_flowspec(out)?;
    write_lsp_filter(out, lsp)?;
    write_label(out, label)
}

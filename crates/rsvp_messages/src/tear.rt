//! PathTear (RFC 2205, section 3.1.5).

ghost use Rattle.std.specs.Prelude.{◌≡◌, ◌++◌, Some, OnOk};
ghost use Rattle.ason_base.specs.declared.messages.Msg.{Msg};
ghost use Rattle.wire_buf.specs.Codecs.{Reads};
ghost use Rattle.rsvp_messages.specs.{Packets.SpellsTyped, Seen.all_seen, Written.{all_bytes, msg_objects}};

use crate::classes::SENDER_TEMPLATE;
use crate::fields::{Subject, link, read_subject, write_link, write_lsp_sender, write_lsp_session};
use crate::object_table::Objects;
use ason_base::{LinkId, Lsp, Msg, NodeId, OutOfMemory};

/// The PathTear that the objects spell. None exactly where they spell none.
pub(crate) fn read_tear(objects: &Objects) -> Option<Msg>
    ensures { Reads (SpellsTyped 5 (all_seen objects.now)) result }
{
    let Subject { lsp, egress } = read_subject(objects, SENDER_TEMPLATE)?;
    let link = link(objects)?;
    Some(Msg::PathTear { lsp, egress, link })
}

/// Appends the objects of a PathTear.
pub(crate) fn write_tear(
    out: &mut Vec<u8>,
    sender: NodeId,
    lsp: &Lsp,
    egress: NodeId,
    link: LinkId,
) -> Result<(), OutOfMemory>
    ensures { OnOk result (out.new.items ≡ out.old.items ++ all_bytes
        (msg_objects sender (Msg.PathTear lsp.now egress link))) }
{
    write_lsp_session(out, lsp, egress)?;
    write_link(out, sender, link)?;
    write_lsp_sender(out, lsp)
}

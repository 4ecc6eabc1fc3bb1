//! The objects that several messages read: what names the LSP, and the link that a message came over.

ghost use Rattle.std.specs.Prelude.{◌≡◌, ◌++◌, OnOk};
ghost use Rattle.wire_buf.specs.Codecs.{Reads};
ghost use Rattle.rsvp_objects.specs.Bodies.{IsSenderRef, IsSession};
ghost use Rattle.rsvp_messages.specs.{Messages.{ComesOver, NamesLsp}, Parts.HasOne, Seen.all_seen, Written.{bytes_of, hop_object, sender_object, session_object}};

use crate::classes::{FILTER_SPEC, RSVP_HOP, SESSION};
use crate::lookup::one;
use crate::object_table::Objects;
use ason_base::{LinkId, Lsp, NodeId, OutOfMemory};
use rsvp_objects::{
    HopObject, SenderRef, Session, read_filter, read_hop, read_sender, read_session, write_filter,
    write_hop, write_sender, write_session,
};

/// The C-Type of an LSP tunnel over IPv4, in SESSION, SENDER_TEMPLATE and FILTER_SPEC.
const LSP_TUNNEL: u8 = 7;

/// The C-Type of an RSVP_HOP with an interface.
const IF_ID: u8 = 3;

/// An LSP and its egress.
#[derive(Clone, Copy)]
pub(crate) struct Subject {
    pub lsp: Lsp,
    pub egress: NodeId,
}

fn session(objects: &Objects) -> Option<Session>
    ensures { Reads (λ s. HasOne 1 7 (λ body. IsSession body s) (all_seen objects.now)) result }
{
    let body = one(objects, SESSION, LSP_TUNNEL)?;
    read_session(body)
}

// The sender by its SENDER_TEMPLATE or FILTER_SPEC.
fn sender(objects: &Objects, class: u8) -> Option<SenderRef>
    ensures { Reads (λ s. HasOne class 7 (λ body. IsSenderRef body s)
        (all_seen objects.now)) result }
{
    let body = one(objects, class, LSP_TUNNEL)?;
    if class == FILTER_SPEC {
        read_filter(body)
    } else {
        read_sender(body)
    }
}

/// The LSP by its SESSION and the object of this class.
pub(crate) fn read_subject(objects: &Objects, class: u8) -> Option<Subject>
    ensures { Reads (λ n. NamesLsp class (all_seen objects.now) n.lsp n.egress) result }
{
    let session = session(objects)?;
    let sender = sender(objects, class)?;
    Some(Subject {
        lsp: Lsp {
            ingress: sender.sender,
            tunnel: session.tunnel,
            lsp: sender.lsp,
        },
        egress: session.endpoint,
    })
}

/// The link of the RSVP_HOP.
pub(crate) fn link(objects: &Objects) -> Option<LinkId>
    ensures { Reads (ComesOver (all_seen objects.now)) result }
{
    let body = one(objects, RSVP_HOP, IF_ID)?;
    let hop = read_hop(body)?;
    Some(hop.link)
}

/// Appends the SESSION of an LSP.
pub(crate) fn write_lsp_session(
    out: &mut Vec<u8>,
    lsp: &Lsp,
    egress: NodeId,
) -> Result<(), OutOfMemory>
    ensures { OnOk result (out.new.items ≡ out.old.items ++ bytes_of
        (session_object lsp.now egress)) }
{
    let session = Session {
        endpoint: egress,
        tunnel: lsp.tunnel,
        extended: lsp.ingress.0,
    };
    write_session(out, &session)
}

fn sender_of(lsp: &Lsp) -> SenderRef
    ensures { result ≡ record { sender = lsp.now.ingress; lsp = lsp.now.lsp } }
{
    SenderRef {
        sender: lsp.ingress,
        lsp: lsp.lsp,
    }
}

/// Appends the SENDER_TEMPLATE of an LSP.
pub(crate) fn write_lsp_sender(out: &mut Vec<u8>, lsp: &Lsp) -> Result<(), OutOfMemory>
    ensures { OnOk result (out.new.items ≡ out.old.items ++ bytes_of (sender_object 11 lsp.now)) }
{
    write_sender(out, &sender_of(lsp))
}

/// Appends the FILTER_SPEC of an LSP.
pub(crate) fn write_lsp_filter(out: &mut Vec<u8>, lsp: &Lsp) -> Result<(), OutOfMemory>
    ensures { OnOk result (out.new.items ≡ out.old.items ++ bytes_of (sender_object 10 lsp.now)) }
{
    write_filter(out, &sender_of(lsp))
}

/// Appends the RSVP_HOP of a sender and the link that it sends over.
pub(crate) fn write_link(out: &mut Vec<u8>, sender: NodeId, link: LinkId) -> Result<(), OutOfMemory>
    ensures { OnOk result (out.new.items ≡ out.old.items ++ bytes_of (hop_object sender link)) }
{
    write_hop(out, &HopObject { sender, link })
}

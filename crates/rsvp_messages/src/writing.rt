//! Writing whole messages.

ghost use Rattle.std.specs.{Prelude.{◌≡◌, ◌++◌, IfOk, IfSome, OnOk}, Option.option_copied};
ghost use Rattle.rsvp_messages.specs.{Packets.{Spells, type_of}, Writable.IsWritable, Written.{all_bytes, body_objects, msg_objects, written}};
ghost use Rattle.ason_base.specs.Writable.{IsWritableMsg};

use crate::errors::{write_notify, write_path_err};
use crate::header::{begin, seal};
use crate::ids::{write_acks, write_message_id};
use crate::kinds::{ACK, NOTIFY, PATH, PATH_ERR, PATH_TEAR, RESV};
use crate::laws::packets_come_back;
use crate::packet_ref::PacketRef;
use crate::path::{write_path_end, write_path_head, write_path_request, write_path_route};
use crate::resv::write_resv;
use crate::roles::write_role;
use crate::room::room_for;
use crate::tear::write_tear;
use crate::widths::{node_fits, packet_fits};
use ason_base::{Msg, NodeId, OutOfMemory, Packet};
use std::alloc::Global;

fn kind_of(body: Option<&Msg>) -> u8
    ensures { result ≡ type_of (option_copied body.entry) }
{
    match body {
        Some(Msg::Path { .. }) => PATH,
        Some(Msg::Resv { .. }) => RESV,
        Some(Msg::PathErr { .. }) => PATH_ERR,
        Some(Msg::PathTear { .. }) => PATH_TEAR,
        None => ACK,
        Some(Msg::Notify { .. }) => NOTIFY,
    }
}

fn write_msg(out: &mut Vec<u8>, sender: NodeId, msg: &Msg) -> Result<(), OutOfMemory>
    requires { IsWritableMsg msg.now }
    ensures { OnOk result (out.new.items ≡ out.old.items ++ all_bytes
        (msg_objects sender msg.now)) }
{
    match msg {
        Msg::Path {
            lsp,
            egress,
            link,
            route,
            set,
            upstream,
            role,
        } => {
            write_path_head(out, sender, lsp, *egress, *link)?;
            write_path_route(out, route)?;
            write_path_request(out, set, role)?;
            write_role(out, lsp, role)?;
            write_path_end(out, lsp, *upstream)
        }
        Msg::Resv {
            lsp,
            egress,
            link,
            label,
        } => write_resv(out, sender, lsp, *egress, *link, label),
        Msg::PathTear { lsp, egress, link } => write_tear(out, sender, lsp, *egress, *link),
        Msg::PathErr {
            lsp,
            egress,
            at,
            removed,
            code,
        } => write_path_err(out, lsp, *egress, *at, *removed, *code),
        Msg::Notify {
            lsp,
            egress,
            at,
            link,
            code,
        } => write_notify(out, lsp, *egress, *at, *link, *code),
    }
}

fn write_body(out: &mut Vec<u8>, sender: NodeId, body: Option<&Msg>) -> Result<(), OutOfMemory>
    requires { IfSome (option_copied body) IsWritableMsg }
    ensures { OnOk result (out.new.items ≡ out.old.items ++ all_bytes
        (body_objects sender (option_copied body.entry))) }
{
    match body {
        Some(msg) => write_msg(out, sender, msg),
        None => Ok(()),
    }
}

// Law: what is written is read as the packet again. Calling it changes nothing.
fn comes_back(sender: NodeId, p: &PacketRef<'_>)
    requires { IsWritable p.now }
    ensures { Spells (written sender p.now) p.now }
{
    packets_come_back();
    node_fits(sender);
    packet_fits(p);
}

/// Appends the written form of the packet that these parts make, from this sender. After want of memory there may be a
/// part of it.
pub fn encode_ref_into(
    out: &mut Vec<u8>,
    sender: NodeId,
    p: &PacketRef<'_>,
) -> Result<(), OutOfMemory>
    requires { IsWritable p.now }
    ensures written { OnOk result (out.new.items ≡ out.old.items ++ written sender p.now) }
    // What is written is read as the packet again.
    ensures spelled { Spells (written sender p.now) p.now }
{
    comes_back(sender, p);
    let start = out.len();
    begin(out, kind_of(p.body))?;
    write_message_id(out, p.id)?;
    write_acks(out, p.acks)?;
    write_body(out, sender, p.body)?;
    seal(&mut out[start..]);
    Ok(())
}

/// Appends the written form of a packet, from this sender. After want of memory there may be a part of it.
pub fn encode_into(out: &mut Vec<u8>, sender: NodeId, p: &Packet) -> Result<(), OutOfMemory>
    requires { IsWritable p.now }
    ensures written { OnOk result (out.new.items ≡ out.old.items ++ written sender p.now) }
    // What is written is read as the packet again.
    ensures spelled { Spells (written sender p.now) p.now }
{
    encode_ref_into(out, sender, &PacketRef::of(p))
}

/// The written form of a packet, from this sender.
pub fn encode(alloc: Global, sender: NodeId, p: &Packet) -> Result<Vec<u8>, OutOfMemory>
    requires { IsWritable p.now }
    ensures written { IfOk result (λ bytes. bytes.items ≡ written sender p.now) }
    // What is written is read as the packet again.
    ensures spelled { IfOk result (λ bytes. Spells bytes.items p.now) }
{
    let mut out = Vec::with_capacity(alloc, room_for(p))?;
    encode_into(&mut out, sender, p)?;
    Ok(out)
}

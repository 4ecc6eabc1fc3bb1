//! How much room the written form of a packet takes.

ghost use Rattle.std.specs.{Prelude.{◌≤◌, length, IfSome}, Option.option_copied};
ghost use Rattle.ason_base.specs.{Writable.{IsWritableMsg, IsWritableRole}, declared.ids.Lsp.Lsp, declared.ids.NodeId.NodeId};
ghost use Rattle.rsvp_messages.specs.{Writable.IsWritable, Written.{all_bytes, body_objects, msg_objects, role_objects, written}};

use crate::packet_ref::PacketRef;
use ason_base::{Msg, Packet, PathRole};

/// The header and a MESSAGE_ID.
const HEAD: usize = 20;

const ACK: usize = 12;

const STEP: usize = 12;

/// The most of a Path beside the steps of its route and what its role adds.
const PATH: usize = 460;

/// A backup's ASSOCIATION, and the header of its PRIMARY_PATH_ROUTE.
const TIED: usize = 16;

/// A Resv, which is the longest of the other messages.
const RESV: usize = 112;

fn room_for_role(role: &PathRole) -> usize
    requires { IsWritableRole role.now }
    ensures enough { (lsp : Lsp) → length (all_bytes (role_objects lsp role.now)) ≤ result }
    ensures few { result ≤ 784 }
{
    match role {
        PathRole::Work { .. } => 0,
        PathRole::Back { primary, .. } => TIED + STEP * primary.items().len(),
    }
}

fn room_for_msg(msg: &Msg) -> usize
    requires { IsWritableMsg msg.now }
    ensures enough { (sender : NodeId) → length (all_bytes (msg_objects sender msg.now)) ≤ result }
    ensures few { result ≤ 2012 }
{
    match msg {
        Msg::Path { route, role, .. } => PATH + STEP * route.items().len() + room_for_role(role),
        Msg::Resv { .. } | Msg::PathTear { .. } | Msg::PathErr { .. } | Msg::Notify { .. } => RESV,
    }
}

fn room_for_body(body: Option<&Msg>) -> usize
    requires { IfSome (option_copied body) IsWritableMsg }
    ensures enough { (sender : NodeId) →
        length (all_bytes (body_objects sender (option_copied body.entry))) ≤ result }
    ensures few { result ≤ 2012 }
{
    match body {
        Some(msg) => room_for_msg(msg),
        None => 0,
    }
}

/// Room for the written form of the packet that these parts make, in bytes, whoever sends it.
pub fn room_for_ref(p: &PacketRef<'_>) -> usize
    requires { IsWritable p.now }
    ensures enough { (sender : NodeId) → length (written sender p.now) ≤ result }
    ensures few { result ≤ 4096 }
{
    HEAD + ACK * p.acks.len() + room_for_body(p.body)
}

/// Room for the written form of a packet, in bytes, whoever sends it.
pub fn room_for(p: &Packet) -> usize
    requires { IsWritable p.now }
    ensures enough { (sender : NodeId) → length (written sender p.now) ≤ result }
    ensures few { result ≤ 4096 }
{
    room_for_ref(&PacketRef::of(p))
}

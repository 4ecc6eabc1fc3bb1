//! Which packets have a written form.

ghost use Rattle.std.specs.Prelude.{◌↔◌, All, IfSome, IsTrue};
ghost use Rattle.ason_base.specs.Writable.{IsWritableMsg, IsWritableRole};
ghost use Rattle.rsvp_messages.specs.Writable.{IsShort, IsWritable, IsWritableBody};

use crate::ids::MOST_ACKS;
use ason_base::limits::MOST_STEPS;
use ason_base::{Msg, MsgId, Packet, PathRole};

fn is_short(id: MsgId) -> bool
    ensures { IsTrue result ↔ IsShort id }
{
    id.epoch < 1 << 24
}

fn has_short_id(id: Option<MsgId>) -> bool
    ensures { IsTrue result ↔ IfSome id IsShort }
{
    match id {
        Some(id) => is_short(id),
        None => true,
    }
}

fn are_short(ids: &[MsgId]) -> bool
    ensures { IsTrue result ↔ All IsShort ids.now }
{
    ids.iter().all(|id| id.epoch < 1 << 24)
}

fn is_writable_role(role: &PathRole) -> bool
    ensures { IsTrue result ↔ IsWritableRole role.now }
{
    match role {
        PathRole::Work { .. } => true,
        PathRole::Back { primary, .. } => {
            let len = primary.items().len();
            len >= 1 && len <= MOST_STEPS
        }
    }
}

fn is_writable_msg(msg: &Msg) -> bool
    ensures { IsTrue result ↔ IsWritableMsg msg.now }
{
    match msg {
        Msg::Path {
            route,
            set,
            role,
            ..
        } => {
            let len = route.items().len();
            set.least().is_some() && len <= MOST_STEPS && is_writable_role(role)
        }
        Msg::Resv { .. } | Msg::PathTear { .. } | Msg::PathErr { .. } | Msg::Notify { .. } => true,
    }
}

fn has_writable_body(p: &Packet) -> bool
    ensures { IsTrue result ↔ IsWritableBody p.now.id p.now.acks p.now.body }
{
    match &p.body {
        Some(msg) => is_writable_msg(msg),
        None => p.id.is_none() && !p.acks.items().is_empty(),
    }
}

/// Whether the packet has a written form: a Path's set of labels isn't empty, nor is a backup's primary route, lists
/// have at most 64 members, epochs are below 2^24, and a packet without a body has no number and at least one
/// acknowledgement.
pub fn is_writable(p: &Packet) -> bool
    ensures { IsTrue result ↔ IsWritable p.now }
{
    let acks = p.acks.items();
    has_short_id(p.id) && are_short(acks) && acks.len() <= MOST_ACKS && has_writable_body(p)
}

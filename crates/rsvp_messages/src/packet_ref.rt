//! The parts of a packet, where they lie.

ghost use Rattle.std.specs.Prelude.{◌≡◌};

use ason_base::{Msg, MsgId, Packet};
use std::marker::Model;

/// The parts of a packet, as they lie somewhere else. Contracts see it as the packet that they make.
#[derive(Drop)]
pub struct PacketRef<'a> {
    pub id: Option<MsgId>,
    pub acks: &'a [MsgId],
    pub body: Option<&'a Msg>,
}

impl<'a> Model for PacketRef<'a> {
    ghost use Rattle.std.specs.Option.{option_copied};
    ghost use Rattle.ason_base.specs.declared.messages.Packet.{Packet};

    ghost Value = { Packet };

    ghost view = { λ p. record {
      id = p.id;
      acks = p.acks.now;
      body = option_copied p.body;
    } };
}

impl<'a> PacketRef<'a> {
    /// The parts of a packet.
    pub fn of(p: &'a Packet) -> PacketRef<'a>
        ensures { result ≡ p.now }
    {
        PacketRef {
            id: p.id,
            acks: p.acks.items(),
            body: p.body.as_ref(),
        }
    }
}

//! What a packet is to a hop.

ghost use Rattle.std.specs.{Prelude.{◌≡◌, ◌+◌, ◌<◌, ◌^◌, Some, map}, Option.option_to_list};
ghost use Rattle.hop_reliable.specs.Hop.{HopState, ack_of_id, answers_to, heard_as, heard_body, heard_number};

use ason_base::{MsgId, Packet};

/// The epoch of every message that a hop sends or hands up (RFC 2961, section 4.2).
pub const EPOCH: u32 = 1;

/// What a packet is to a hop that has handed up the messages 1 to n.
#[derive(Clone, Copy, Drop)]
pub enum Heard {
    /// It has no message.
    Acked,
    /// It has a message without a number.
    Unnumbered,
    /// Its epoch isn't 1, or its number is above n + 1: it counts as lost.
    Ahead,
    /// Its number is at most n: its message had been handed up before.
    Repeat,
    /// Its number is n + 1: its message is handed up.
    Next,
}

impl Heard {
    /// The number that the answer to a packet that was heard so acknowledges, none where nothing answers it.
    pub fn acked(self, p: &Packet) -> Option<MsgId>
        requires { (h : HopState) × (self ≡ heard_as h p.now) }
        ensures { answers_to self p.now ≡
            map (λ id. ack_of_id (Some id)) (option_to_list result) }
    {
        match self {
            Heard::Next | Heard::Repeat => p.id,
            Heard::Acked | Heard::Unnumbered | Heard::Ahead => None,
        }
    }
}

/// What a packet is where the messages up to number `last` were handed up.
pub(crate) fn heard_as(last: u32, p: &Packet) -> Heard
    ensures heard { result ≡ heard_body last p.now.id p.now.body }
    ensures next { result ≡ Heard.Next → last + 1 < 2 ^ 32 }
{
    match (p.id, &p.body) {
        (_, None) => Heard::Acked,
        (None, Some(_)) => Heard::Unnumbered,
        (Some(id), Some(_)) => heard_number(last, id),
    }
}

fn heard_number(last: u32, id: MsgId) -> Heard
    ensures heard { result ≡ heard_number last id }
    ensures next { result ≡ Heard.Next → last + 1 < 2 ^ 32 }
{
    if id.epoch != EPOCH || u64::from(id.number) > u64::from(last) + 1 {
        Heard::Ahead
    } else if id.number <= last {
        Heard::Repeat
    } else {
        Heard::Next
    }
}

//! What acknowledges a packet.

ghost use Rattle.std.specs.Prelude.{◌≡◌, ◌++◌, ◌∷◌, [], OnOk, Some};
ghost use Rattle.hop_reliable.specs.Hop.{HopState, ack_of_id, heard_as};
ghost use Rattle.rsvp_messages.specs.Writable.{IsShort};
ghost use Rattle.control_channels.specs.{Adjacencies.sendings_to, Controllers.acks_to, Frames.{AllSpelled, frames_to}};

use crate::adjacencies::frame_one;
use crate::frames::{Frame, FrameMaker};
use ason_base::{MsgId, NodeId, OutOfMemory, Packet};
use hop_reliable::Heard;
use rsvp_messages::PacketRef;

// The frame of the acknowledgement of this number goes to the end of the list.
fn frame_ack(
    maker: &mut FrameMaker,
    me: NodeId,
    to: NodeId,
    id: MsgId,
    frames: &mut Vec<Frame>,
) -> Result<(), OutOfMemory>
    requires { IsShort id }
    ensures frames { OnOk result
        (frames.new.items ≡ frames.old.items ++
        frames_to me (sendings_to to (ack_of_id (Some id) ∷ []))) }
    ensures spelled { OnOk result (AllSpelled me (sendings_to to (ack_of_id (Some id) ∷ []))) }
{
    let packet = PacketRef {
        id: None,
        acks: &[id],
        body: None,
    };
    frame_one(maker, me, to, packet, frames)
}

/// The frame of the acknowledgement, where a packet is answered by one, goes to the end of the list.
pub fn acknowledge(
    maker: &mut FrameMaker,
    me: NodeId,
    to: NodeId,
    frames: &mut Vec<Frame>,
    heard: Heard,
    p: &Packet,
) -> Result<(), OutOfMemory>
    requires { (h : HopState) × (heard ≡ heard_as h p.now) }
    ensures frames { OnOk result
        (frames.new.items ≡ frames.old.items ++ frames_to me (acks_to to heard p.now)) }
    ensures spelled { OnOk result (AllSpelled me (acks_to to heard p.now)) }
{
    match heard.acked(p) {
        None => Ok(()),
        Some(id) => frame_ack(maker, me, to, id, frames),
    }
}

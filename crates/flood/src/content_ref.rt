//! What one frame bears, where it lies.

ghost use Rattle.std.specs.Prelude.{◌≡◌};
ghost use Rattle.flood.specs.declared.frames.Content.{Content};

use crate::FloodRef;
use crate::frames::Content;
use rsvp_messages::PacketRef;
use std::marker::Model;

/// Which of the two a frame bears.
#[derive(Drop)]
pub(crate) enum Parts<'a> {
    Message(PacketRef<'a>),
    Flood(FloodRef<'a>),
}

/// What one frame bears, as it lies somewhere else. Contracts see it as the content.
#[derive(Drop)]
pub struct ContentRef<'a> {
    pub(crate) parts: Parts<'a>,
}

impl<'a> Model for ContentRef<'a> {
    ghost use Rattle.flood.specs.declared.frames.Content.{Content};
    ghost use Rattle.flood.specs.FrameReferences.{content_of};

    ghost Value = { Content };

    ghost view = { λ c. content_of c.parts };
}

impl<'a> ContentRef<'a> {
    /// A packet of a hop.
    pub fn message(p: PacketRef<'a>) -> ContentRef<'a>
        ensures { result ≡ Content.Message p.entry }
    {
        ContentRef {
            parts: Parts::Message(p),
        }
    }

    /// A row of a link, or its acknowledgement.
    pub fn flood(m: FloodRef<'a>) -> ContentRef<'a>
        ensures { result ≡ Content.Flood m.entry }
    {
        ContentRef {
            parts: Parts::Flood(m),
        }
    }
}

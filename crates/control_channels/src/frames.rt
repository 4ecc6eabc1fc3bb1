//! The frames that a controller sends.

ghost use Rattle.std.specs.Prelude.{◌≡◌, [], IfOk};
ghost use Rattle.flood.specs.Frames.{ContentCanBeWritten, IsFrame};
ghost use Rattle.control_channels.specs.Frames.{sent_frame};

use ason_base::{Bytes, Items, NodeId, OutOfMemory};
use flood::{ContentRef, write_frame};
use std::alloc::Global;
use std::mem::replace;

/// Bytes on their way to a neighbour.
#[derive(Drop)]
pub struct Frame {
    pub to: NodeId,
    pub bytes: Bytes,
}

/// Frames, in the order in which they are sent.
pub type Frames = Items<Frame>;

/// How many buffers a maker keeps for frames to come.
const MOST_SPARE: usize = 2048;

/// Room for so many bytes is taken at once: that of the frame of a row with an SRLG.
const ROOM: usize = 64;

/// What makes frames. It takes back the lists and the bytes of frames that came to their end, and uses their memory
/// again.
pub struct FrameMaker {
    /// Where frames and lists of them get their memory.
    pub alloc: Global,
    spare: Vec<Vec<u8>>,
    list: Vec<Frame>,
}

impl FrameMaker {
    /// A maker that keeps no memory yet.
    pub fn new(alloc: Global) -> FrameMaker {
        FrameMaker {
            alloc,
            spare: Vec::new(alloc),
            list: Vec::new(alloc),
        }
    }

    /// A list without frames.
    pub fn list(&mut self) -> Vec<Frame>
        ensures { result.items ≡ [] }
    {
        let mut list = replace(&mut self.list, Vec::new(self.alloc));
        list.clear();
        list
    }

    /// Takes back a list, whose frames came to their end.
    pub fn recycle_list(&mut self, list: Vec<Frame>) {
        self.list = list;
    }

    /// Takes back the bytes of a frame that came to its end.
    pub fn recycle_bytes(&mut self, bytes: Bytes) {
        if self.spare.len() < MOST_SPARE {
            let _ = self.spare.push(bytes.into_vec());
        }
    }

    // A buffer without bytes.
    fn buffer(&mut self) -> Result<Vec<u8>, OutOfMemory>
        ensures { IfOk result (λ buffer. buffer.items ≡ []) }
    {
        match self.spare.pop() {
            Some(mut buffer) => {
                buffer.clear();
                Ok(buffer)
            }
            None => Ok(Vec::with_capacity(self.alloc, ROOM)?),
        }
    }

    /// What goes from this node to a neighbour.
    pub fn frame(
        &mut self,
        me: NodeId,
        to: NodeId,
        content: &ContentRef<'_>,
    ) -> Result<Frame, OutOfMemory>
        requires { ContentCanBeWritten content.now }
        ensures frame { IfOk result (λ f. f ≡ sent_frame me to content.now) }
        ensures spelled { IfOk result (λ f. IsFrame f.bytes content.now) }
    {
        let mut bytes = self.buffer()?;
        write_frame(&mut bytes, me, content)?;
        Ok(Frame {
            to,
            bytes: Bytes::from_vec(bytes),
        })
    }
}

impl Drop for FrameMaker {
    fn drop(self) {
        let FrameMaker {
            alloc: _,
            spare: _,
            list: _,
        } = self;
    }
}

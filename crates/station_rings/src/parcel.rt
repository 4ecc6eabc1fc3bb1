//! What goes through a ring.

use ason_base::Bytes;

/// A frame with its number on its channel, where the first frame that was ever sent has number 1, and with the stamp of
/// the line that sent it.
#[derive(Drop)]
pub struct Parcel {
    pub number: u64,
    pub stamp: u64,
    pub frame: Bytes,
}

//! Whole messages of RSVP-TE, read and written (RFC 2205, RFC 3209, RFC 3473, RFC 4872).
//!
//! The grammar is the relation `Spells`: a header with a right checksum or none, then objects to the end. Each class
//! that a message reads stands as often as it must, in any order. Carried and ignored ones may stand between.
//!
//! - `decode`: with Ok the bytes spell the packet (`found`) and no other (`only`). NotMessage comes exactly when they
//!   spell none (`not_message`). `read` promises the same of a `ReadPacket`, by `packet_read`.
//! - `objects`: a line for each object, in order, with what becomes of it (`HasLines`). NotMessage comes as for
//!   `decode`.
//! - `encode`: the written form (`written`), which spells the packet (`spelled`). It asks that the packet can be
//!   written, which `is_writable` tells exactly.
//! - `encode_into` appends that form to bytes that are there, and `encode_ref_into` takes a `PacketRef` for it.
//! - `room_for`, `room_for_ref`: at least as many bytes as the form has (`enough`), and at most 4,096 (`few`).
//! - Law `packets_come_back`: the written form of a packet that can be written spells it.
//! - Law `order_of_classes_is_free`: what objects spell depends only on the objects of each class, in order.
//! - Law `order_of_objects_is_free`: a message with the same objects in another order spells the same packet. Its type
//!   must be the same, its checksum right or none, and the acknowledgements in the same order.
//! - Law `what_is_read_can_be_written`: a packet that bytes spell can be written, but for a Path whose LABEL_SETs leave
//!   no label.
//! - Law `every_change`: a message that was sent with a checksum spells no packet once a byte outside the checksum's
//!   field is another one (`byte`). The same holds once one bit there is another one (`bit`).
//!
//! Tested: codec_tests read and write a message of each type, among them the Path of a backup. `tests/test_decode.py`
//! has wrong and missing checksums, and objects that are cut short, out of place or doubled.
//! Neither proved nor tested: that damage of two bytes or more is found, or damage to a message without a checksum.
#![tactic(auto)]

// Adds the item at the end of the list. Where memory runs out, the function ends so.
macro_rules! push_decoded {
    ($items:ident, $item:expr) => {
        match $items.push($item) {
            Ok(()) => {}
            Err(_) => return Err(DecodeError::OutOfMemory),
        }
    };
}

// Adds what each object of the class spells. Where one spells nothing, the function ends with NotMessage.
macro_rules! push_each {
    ($items:ident, $objects:ident, $class:ident, $ctype:ident, $read:ident) => {
        'objects: for object in $objects {
            if object.class != $class {
                continue;
            }
            if object.ctype != $ctype {
                return Err(DecodeError::NotMessage);
            }
            let Some(item) = $read(object.body) else {
                return Err(DecodeError::NotMessage);
            };
            push_decoded!($items, item);
        }
    };
}

mod classes;
mod errors;
mod fields;
mod fixed;
mod header;
mod ids;
mod kinds;
mod label_sets;
pub mod laws;
pub mod lines;
mod lookup;
mod object_table;
pub mod packet_ref;
mod path;
mod raw;
pub mod reading;
mod resv;
mod roles;
pub mod room;
mod tear;
mod widths;
pub mod writable;
pub mod writing;

pub use lines::{Fate, ObjectLine, objects};
pub use packet_ref::PacketRef;
pub use reading::{ReadPacket, decode, read};
pub use room::{room_for, room_for_ref};
pub use writable::is_writable;
pub use writing::{encode, encode_into, encode_ref_into};

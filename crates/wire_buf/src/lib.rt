//! Fields of messages in network byte order, the Internet checksum, and what several crates of objects share.
//!
//! - `Cursor`: `u8` to `u64` and `take` give the number or the bytes at the front. None comes exactly when too few
//!   bytes are left, and then the cursor stays.
//! - `push_u8` to `push_u32`, `put_u8` to `put_u32`: these append a number, the highest byte first.
//! - `internet_checksum`: the one's complement of the sum of all 16-bit words in one's complement (RFC 1071), by
//!   `checksum_of`.
//! - Law `carries_may_wait`: words that are added one by one in one's complement have the sum that all have at once.
//! - Law `right_checksums_cancel`: if the sum of the other words is above 0, a field has their checksum exactly when
//!   the checksum of the whole is 0.
//! - Law `pieces_keep_words`: the words of two pieces are those of the whole, if the first piece has no odd byte.
//! - `Reads`: a reader gives a value exactly when the bytes have that meaning, and it is the only one (`found`,
//!   `only`). `Decodes` is the same, out of memory aside, and NotMessage comes exactly when they have none
//!   (`not_message`). By the lemma `one_meaning` bytes that are read so have one meaning.
//! - `AppendsBytes`: a writer's bytes are behind what was there (`ok`). Otherwise nothing has changed (`err`), and
//!   too little room was reserved (`full`).
//! - `read_hex`, `push_hex`: two digits a byte, read in either case and written in upper case. None comes exactly when
//!   the text has another form. Law `hex_comes_back`: what is written of bytes is read as those bytes.
//! - `read_steps`, `write_steps`: routes, by law `routes_come_back`. Law `routes` tells a step's type and size.
//! - `at_most_one`: the value of the one TLV of a type, if there is one (`some`, `value`). None comes exactly when the
//!   bytes aren't TLVs or two are of that type (`none`). `next_tlv` gives the TLV at the front.
//! - `AreItems`: items one after the other, to the end of the bytes, as routes, TLVs and objects are.
//!
//! Tested: codec_tests have checksums of RFC 1071's example, of no bytes and of an odd number, and fields and routes in
//! messages. `tests/test_decode.py` has right and wrong checksums of messages.
#![tactic(auto)]

pub mod checksum;
pub mod constants;
pub mod cursor;
pub mod hex;
pub mod objects;
pub mod pushes;
pub mod routes;
pub mod tlv;

pub use checksum::internet_checksum;
pub use cursor::Cursor;
pub use hex::{hex_digit, push_hex, read_hex};
pub use objects::put_header;
pub use pushes::{push_u8, push_u16, push_u24, push_u32, put_u8, put_u16, put_u24, put_u32};
pub use routes::{read_steps, write_steps};
pub use tlv::{at_most_one, next_tlv};

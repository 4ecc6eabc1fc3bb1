//! Tests of the crates that read and write, over their public calls, as far as no command shows what they do.
//!
//! - `ends`: sources and sinks of ason_io.
//! - `fields`: the fields of bytes of wire_buf.
//! - `objects`: the objects of rsvp_objects.
//! - `messages`: whole messages of rsvp_messages.
//! - `hops`: the reliable hop of hop_reliable.
//! - `floods`: Link TLVs of te_tlv and the floods of flood.
//!
//! The heads of these crates say what the tests show. There is nothing here but tests, which are proved too, and
//! nothing is promised of them.
#![tactic(auto)]

#[cfg(test)]
mod ends;
#[cfg(test)]
mod fields;
#[cfg(test)]
mod floods;
#[cfg(test)]
mod hops;
#[cfg(test)]
mod messages;
#[cfg(test)]
mod objects;

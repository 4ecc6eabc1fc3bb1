//! The objects of RSVP-TE's messages and of its recovery (RFC 4872), read and written.
//!
//! - Reading, as `read_session`: a value exactly when the object's body has that meaning, and none otherwise. Only
//!   routes take memory to be read.
//! - Writing, as `write_session`: the object is appended with its header. Out of memory nothing has changed.
//! - Laws `sessions_come_back`, `hops_come_back`, `errors_come_back`, `ids_come_back`, `labels_come_back`,
//!   `label_sets_come_back`, `requests_come_back`, `senders_come_back`, `protections_come_back` and
//!   `associations_come_back`: what is written is read as the same value, if its numbers have their widths.
//! - `read_error` and `read_error_ipv4`: an ERROR_SPEC with an interface, and one without.
//! - `read_label_set`: which labels are included or excluded. A body has no meaning if its action isn't 0 to 3, it has
//!   no label, a label isn't whole, or a range hasn't exactly two. `write_label_set` writes an empty set as the one
//!   label 0, which names none.
//! - `read_protection`: none exactly when the bits S and P and the LSP flags are none of the four that are used here.
//! - `read_route` and `read_primary`: a route of 1 to 64 steps.
//!
//! `docs/formats.md` has the objects in its section 4.
//!
//! Tested: codec_tests show which labels LABEL_SETs name, an ERROR_SPEC of RFC 2205, and the other objects in messages,
//! both ways. `tests/test_decode.py` has objects without a meaning, and `tests/test_frames.py` each PROTECTION of a
//! run.
#![tactic(auto)]

pub mod association;
pub mod error;
pub mod hop;
pub mod id;
pub mod label;
pub mod label_set;
pub mod primary;
pub mod protection;
pub mod request;
pub mod route;
pub mod sender;
pub mod session;
mod tlv;

pub use association::{Association, read_association, write_association};
pub use error::{ErrorSpec, read_error, read_error_ipv4, write_error, write_error_ipv4};
pub use hop::{HopObject, read_hop, write_hop};
pub use id::{read_id, read_id as read_ack, write_ack, write_id};
pub use label::{read_label, read_label as read_upstream, write_label, write_upstream};
pub use label_set::{LabelSetObject, read_label_set, write_label_set};
pub use primary::{read_primary, write_primary};
pub use protection::{Protection, read_protection, write_protection};
pub use request::{LabelRequest, read_request, write_request};
pub use route::{read_route, write_route};
pub use sender::{SenderRef, read_filter, read_sender, write_filter, write_sender};
pub use session::{Session, read_session, write_session};

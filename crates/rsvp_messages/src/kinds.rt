//! Types of messages (RFC 2205, section 3.1.1; RFC 2961, section 4.4; RFC 3473, section 4.3).

pub(crate) const PATH: u8 = 1;

pub(crate) const RESV: u8 = 2;

pub(crate) const PATH_ERR: u8 = 3;

pub(crate) const PATH_TEAR: u8 = 5;

pub(crate) const ACK: u8 = 13;

pub(crate) const NOTIFY: u8 = 21;

//! The limits of a node.

use ason_base::limits::MOST_NODES;

/// The most legs that a node keeps.
pub const MOST_LEGS: usize = 4096;

/// The most links of a route: it comes to no node twice.
pub const MOST_LINKS_OF_ROUTE: usize = MOST_NODES - 1;

/// The last number of a tunnel or an LSP (RFC 3209, section 4.6.1: 16 bits).
pub const LAST_NUMBER: u32 = 65_535;

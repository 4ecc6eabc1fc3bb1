//! What a call is lent.

use ason_io::Gate;
use std::alloc::Global;
use std::sync::Wait;
use std::thread::Threads;

/// Threads, memory, and the gate before the entries of a node's log.
#[derive(Drop)]
pub struct Host<'a, R: Threads + Wait + Sync, G: Gate> {
    pub rt: &'a R,
    pub alloc: Global,
    pub gate: &'a G,
}

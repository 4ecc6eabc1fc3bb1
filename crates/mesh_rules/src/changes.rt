//! What becomes of a leg, of a call, and of the numbers that an ingress gives out.

use ason_base::{CallNo, CallRec, Leg, Lsp};

/// What becomes of one leg.
#[derive(Drop)]
pub enum LegChange {
    /// The leg of this LSP goes.
    Goes(Lsp),
    /// This leg is put in the place of the one of its LSP.
    Put(Leg),
}

/// What becomes of one call.
#[derive(Drop)]
pub enum CallChange {
    /// The call of this number goes.
    Goes(CallNo),
    /// This call is put in the place of the one of its number.
    Put(CallRec),
}

/// The tunnel and LSP numbers that an ingress gives out next.
#[derive(Clone, Copy, Drop)]
pub struct NextNumbers {
    pub tunnel: u32,
    pub lsp: u32,
}

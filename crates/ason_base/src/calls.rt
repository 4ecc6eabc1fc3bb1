//! Calls and legs as tables show them.

use crate::codes::ErrCode;
use crate::copied;
use crate::copies::Copied;
use crate::ids::{CallNo, LinkId, Lsp, NodeId, OutOfMemory};
use crate::items::Items;
use crate::labels::Label;
use std::alloc::Global;

/// What an LSP is for.
#[derive(Clone, Copy, PartialEq, Eq, Drop)]
pub enum Role {
    Work,
    Back,
}

/// How far one LSP has come at one node.
#[derive(Clone, Copy, PartialEq, Eq, Drop)]
pub enum Phase {
    /// A Path passed.
    Asked,
    /// The label is reserved and not connected; backups alone.
    Held,
    /// The activation passed; it isn't connected.
    Armed,
    /// Cross-connected.
    Live,
    /// Torn, until the next node has let go.
    Closing,
    /// The same, for a backup that was Armed or Live.
    Falling,
}

/// What becomes of a call (ITU-T G.8080, call control).
#[derive(Clone, Copy, PartialEq, Eq, Drop)]
pub enum CallState {
    /// The working LSP is asked for.
    Asking,
    /// The working LSP stands, without a backup.
    Bare,
    /// The backup is asked for.
    Pairing,
    /// The backup is reserved.
    Guarded,
    /// The backup is being switched.
    Turning,
    /// The backup carries the call.
    Turned,
    /// The backup can't carry the call, though the working LSP failed.
    Stuck,
    /// The call was refused.
    Blocked,
}

/// Why a call is blocked, bare or stuck.
#[derive(Clone, Copy, PartialEq, Eq, Drop)]
pub enum Cause {
    Unset,
    /// No route leads to the egress.
    NoRoute,
    /// No backup route is disjoint from the working one.
    NoBackup,
    /// No LSP number is left at the ingress.
    Spent,
    /// The ingress has as many legs as it keeps.
    Full,
    /// The backup failed too.
    BackDown,
    /// What a PathErr said.
    Code(ErrCode),
}

/// One call, as a table shows it.
#[derive(Clone, Copy, Drop)]
pub struct CallRow {
    pub call: CallNo,
    pub ingress: NodeId,
    pub egress: NodeId,
    pub state: CallState,
    pub work: Option<Lsp>,
    pub back: Option<Lsp>,
    pub cause: Cause,
}

/// One leg, as a table shows it. `back_in` and `back_out` are the labels of the backward direction.
#[derive(Clone, Copy, PartialEq, Eq, Drop)]
pub struct LegRow {
    pub lsp: Lsp,
    pub node: NodeId,
    pub role: Role,
    pub phase: Phase,
    pub in_link: Option<LinkId>,
    pub in_label: Option<Label>,
    pub out_link: Option<LinkId>,
    pub out_label: Option<Label>,
    pub back_in: Option<Label>,
    pub back_out: Option<Label>,
}

/// A list of calls.
pub type CallRows = Items<CallRow>;

/// A list of legs.
pub type LegRows = Items<LegRow>;

/// The calls and legs of one node, or of a network.
#[derive(Drop)]
pub struct TableRows {
    pub calls: CallRows,
    pub legs: LegRows,
}

impl Copied for TableRows {
    fn copy(&self, alloc: Global) -> Result<TableRows, OutOfMemory> {
        copied!(self, alloc; TableRows { ; calls, legs })
    }
}

//! Messages of RSVP-TE (RFC 2205, RFC 3473, RFC 4872) as nodes understand them, and the packets that carry them.

ghost use Rattle.std.specs.Prelude.{◌≡◌};

use crate::codes::ErrCode;
use crate::copied;
use crate::copies::Copied;
use crate::ids::{LinkId, Lsp, NodeId, OutOfMemory};
use crate::items::Items;
use crate::labels::{Label, LabelSet};
use crate::steps::Steps;
use std::alloc::Global;

/// What the LSP of a Path is for (PROTECTION, RFC 4872, section 14).
pub enum PathRole {
    /// A working LSP; `guard` tells whether a backup is to stand beside it.
    Work {
        guard: bool,
    },
    /// A backup of the ingress's LSP `work`, whose route is `primary`. It is switched where `active`.
    Back {
        active: bool,
        work: u16,
        primary: Steps,
    },
}

impl Copied for PathRole {
    fn copy(&self, alloc: Global) -> Result<PathRole, OutOfMemory> {
        match self {
            PathRole::Work { guard } => Ok(PathRole::Work { guard: *guard }),
            PathRole::Back {
                active,
                work,
                primary,
            } => {
                let primary = primary.copy(alloc)?;
                Ok(PathRole::Back {
                    active: *active,
                    work: *work,
                    primary,
                })
            }
        }
    }
}

impl Drop for PathRole {
    fn drop(self) {
        match self {
            PathRole::Work { guard: _ }
            | PathRole::Back {
                active: _,
                work: _,
                primary: _,
            } => {}
        }
    }
}

/// A message of RSVP-TE.
pub enum Msg {
    /// Asks for an LSP, with the labels that the sender's side allows (RFC 3473, section 2).
    Path {
        lsp: Lsp,
        egress: NodeId,
        link: LinkId,
        route: Steps,
        set: LabelSet,
        upstream: Option<Label>,
        role: PathRole,
    },
    /// Answers a Path with the label that its sender is to use.
    Resv {
        lsp: Lsp,
        egress: NodeId,
        link: LinkId,
        label: Label,
    },
    /// Takes an LSP down, towards the egress.
    PathTear {
        lsp: Lsp,
        egress: NodeId,
        link: LinkId,
    },
    /// Tells the ingress's side that node `at` found an error. `removed` is Path_State_Removed (RFC 3473, section 4.4).
    PathErr {
        lsp: Lsp,
        egress: NodeId,
        at: NodeId,
        removed: bool,
        code: ErrCode,
    },
    /// Tells the ingress's side of a fibre of `link` into node `at` (RFC 3473, section 4.3).
    Notify {
        lsp: Lsp,
        egress: NodeId,
        at: NodeId,
        link: LinkId,
        code: ErrCode,
    },
}

impl Copied for Msg {
    fn copy(&self, alloc: Global) -> Result<Msg, OutOfMemory> {
        match self {
            Msg::Path {
                lsp,
                egress,
                link,
                route,
                set,
                upstream,
                role,
            } => {
                let route = route.copy(alloc)?;
                let role = role.copy(alloc)?;
                Ok(Msg::Path {
                    lsp: *lsp,
                    egress: *egress,
                    link: *link,
                    route,
                    set: set.copy(),
                    upstream: *upstream,
                    role,
                })
            }
            Msg::Resv {
                lsp,
                egress,
                link,
                label,
            } => Ok(Msg::Resv {
                lsp: *lsp,
                egress: *egress,
                link: *link,
                label: *label,
            }),
            Msg::PathTear { lsp, egress, link } => Ok(Msg::PathTear {
                lsp: *lsp,
                egress: *egress,
                link: *link,
            }),
            Msg::PathErr {
                lsp,
                egress,
                at,
                removed,
                code,
            } => Ok(Msg::PathErr {
                lsp: *lsp,
                egress: *egress,
                at: *at,
                removed: *removed,
                code: *code,
            }),
            Msg::Notify {
                lsp,
                egress,
                at,
                link,
                code,
            } => Ok(Msg::Notify {
                lsp: *lsp,
                egress: *egress,
                at: *at,
                link: *link,
                code: *code,
            }),
        }
    }
}

impl Drop for Msg {
    fn drop(self) {
        match self {
            Msg::Path {
                lsp: _,
                egress: _,
                link: _,
                route: _,
                set: _,
                upstream: _,
                role: _,
            }
            | Msg::Resv {
                lsp: _,
                egress: _,
                link: _,
                label: _,
            }
            | Msg::PathTear {
                lsp: _,
                egress: _,
                link: _,
            }
            | Msg::PathErr {
                lsp: _,
                egress: _,
                at: _,
                removed: _,
                code: _,
            }
            | Msg::Notify {
                lsp: _,
                egress: _,
                at: _,
                link: _,
                code: _,
            } => {}
        }
    }
}

/// A message's number on a hop, in the sender's epoch (RFC 2961, section 4.2).
#[derive(Clone, Copy, PartialEq, Eq, Drop)]
pub struct MsgId {
    pub epoch: u32,
    pub number: u32,
}

/// A list of message numbers.
pub type Ids = Items<MsgId>;

/// What one frame carries: a message with its number, or none, and acknowledgements (RFC 2961, section 4).
pub struct Packet {
    pub id: Option<MsgId>,
    pub acks: Ids,
    pub body: Option<Msg>,
}

impl Packet {
    /// The acknowledgements, and the message.
    pub fn into_parts(self) -> (Ids, Option<Msg>)
        ensures { result ≡ record { 0 = self.acks; 1 = self.body } }
    {
        let Packet { id: _, acks, body } = self;
        (acks, body)
    }
}

impl Copied for Packet {
    fn copy(&self, alloc: Global) -> Result<Packet, OutOfMemory> {
        copied!(self, alloc; Packet { id; acks, body })
    }
}

impl Drop for Packet {
    fn drop(self) {
        let Packet {
            id: _,
            acks: _,
            body: _,
        } = self;
    }
}

/// Why bytes give no value.
#[derive(Clone, Copy, Drop)]
pub enum DecodeError {
    /// The bytes spell nothing.
    NotMessage,
    OutOfMemory,
}

//! What operators and fibres tell the controllers, and what is logged of it.

use crate::boxes::Boxed;
use crate::copied;
use crate::copies::Copied;
use crate::ids::{CallNo, Fibre, LinkId, NodeId, OutOfMemory};
use crate::lists::Bytes;
use crate::steps::Steps;
use std::alloc::Global;

/// What fails or is repaired as one.
#[derive(Clone, Copy, Drop)]
pub enum Group {
    Srlg(u32),
    Link(LinkId),
}

/// What an operator asks for.
pub enum Command {
    /// A call, over the routes that are given, one-way or (`both`) two-way.
    Setup {
        call: CallNo,
        from: NodeId,
        to: NodeId,
        protected: bool,
        both: bool,
        via: Option<Steps>,
        backup: Option<Steps>,
    },
    /// Gives the call up.
    Release {
        call: CallNo,
        from: NodeId,
    },
    /// Asks for a backup of a bare call.
    Protect {
        call: CallNo,
        from: NodeId,
    },
    /// Switches the backup of a stuck call again.
    Retry {
        call: CallNo,
        from: NodeId,
    },
    /// Takes the call back to its working LSP.
    Revert {
        call: CallNo,
        from: NodeId,
    },
    /// A group fails.
    Fail {
        group: Group,
    },
    /// A group is repaired.
    Repair {
        group: Group,
    },
}

impl Copied for Command {
    fn copy(&self, alloc: Global) -> Result<Command, OutOfMemory> {
        match self {
            Command::Setup {
                call,
                from,
                to,
                protected,
                both,
                via,
                backup,
            } => {
                let via = via.copy(alloc)?;
                let backup = backup.copy(alloc)?;
                Ok(Command::Setup {
                    call: *call,
                    from: *from,
                    to: *to,
                    protected: *protected,
                    both: *both,
                    via,
                    backup,
                })
            }
            Command::Release { call, from } => Ok(Command::Release {
                call: *call,
                from: *from,
            }),
            Command::Protect { call, from } => Ok(Command::Protect {
                call: *call,
                from: *from,
            }),
            Command::Retry { call, from } => Ok(Command::Retry {
                call: *call,
                from: *from,
            }),
            Command::Revert { call, from } => Ok(Command::Revert {
                call: *call,
                from: *from,
            }),
            Command::Fail { group } => Ok(Command::Fail { group: *group }),
            Command::Repair { group } => Ok(Command::Repair { group: *group }),
        }
    }
}

impl Drop for Command {
    fn drop(self) {
        match self {
            Command::Setup {
                call: _,
                from: _,
                to: _,
                protected: _,
                both: _,
                via: _,
                backup: _,
            }
            | Command::Release { call: _, from: _ }
            | Command::Protect { call: _, from: _ }
            | Command::Retry { call: _, from: _ }
            | Command::Revert { call: _, from: _ }
            | Command::Fail { group: _ }
            | Command::Repair { group: _ } => {}
        }
    }
}

/// What stands on a node's desk.
#[derive(Drop)]
pub enum DeskItem {
    Order(Command),
    /// A fibre that comes in here went down.
    Alarm(Fibre),
    /// It is up again.
    Clear(Fibre),
}

impl Copied for DeskItem {
    fn copy(&self, alloc: Global) -> Result<DeskItem, OutOfMemory> {
        match self {
            DeskItem::Order(command) => {
                let command = command.copy(alloc)?;
                Ok(DeskItem::Order(command))
            }
            DeskItem::Alarm(fibre) => Ok(DeskItem::Alarm(*fibre)),
            DeskItem::Clear(fibre) => Ok(DeskItem::Clear(*fibre)),
        }
    }
}

/// What happens in a network of controllers.
pub enum Event {
    /// The frame of this number on the channel from `from` reaches `to`.
    Deliver {
        to: NodeId,
        from: NodeId,
        number: u64,
    },
    /// Bytes that spell nothing reach `to`.
    Noise {
        to: NodeId,
        from: NodeId,
        bytes: Bytes,
    },
    Tick {
        node: NodeId,
    },
    /// The first item of the node's desk is handled.
    Desk {
        node: NodeId,
    },
    /// A command is given. Its box keeps the events small of which a log is made.
    Post {
        command: Boxed<Command>,
    },
}

impl Copied for Event {
    fn copy(&self, alloc: Global) -> Result<Event, OutOfMemory> {
        match self {
            Event::Deliver { to, from, number } => Ok(Event::Deliver {
                to: *to,
                from: *from,
                number: *number,
            }),
            Event::Noise { to, from, bytes } => {
                let bytes = bytes.copy(alloc)?;
                Ok(Event::Noise {
                    to: *to,
                    from: *from,
                    bytes,
                })
            }
            Event::Tick { node } => Ok(Event::Tick { node: *node }),
            Event::Desk { node } => Ok(Event::Desk { node: *node }),
            Event::Post { command } => {
                let command = command.copy(alloc)?;
                Ok(Event::Post { command })
            }
        }
    }
}

impl Drop for Event {
    fn drop(self) {
        match self {
            Event::Deliver {
                to: _,
                from: _,
                number: _,
            }
            | Event::Noise {
                to: _,
                from: _,
                bytes: _,
            }
            | Event::Tick { node: _ }
            | Event::Desk { node: _ }
            | Event::Post { command: _ } => {}
        }
    }
}

/// One line of a log: an event with its logical time, at a node, or a post.
#[derive(Drop)]
pub struct Entry {
    pub stamp: u64,
    pub node: Option<NodeId>,
    pub event: Event,
}

impl Copied for Entry {
    fn copy(&self, alloc: Global) -> Result<Entry, OutOfMemory> {
        copied!(self, alloc; Entry { stamp, node; event })
    }
}

/// A line of a log whose event is lent.
#[derive(Clone, Copy)]
pub struct EntryRef<'a> {
    pub stamp: u64,
    pub node: Option<NodeId>,
    pub event: &'a Event,
}

/// What is done to one frame of a channel.
#[derive(Clone, Copy, Drop)]
pub enum DisturbKind {
    Lose,
    Repeat,
    Hold,
}

/// The k-th frame from now on the channel is lost, repeated or held back.
#[derive(Clone, Copy, Drop)]
pub struct Disturb {
    pub kind: DisturbKind,
    pub from: NodeId,
    pub to: NodeId,
    pub k: u64,
}

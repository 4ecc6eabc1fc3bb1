//! Why bytes are no plan.

ghost use Rattle.std.specs.Prelude.{◌≡◌};
ghost use Rattle.plan_reader.specs.{Entries.error_at, declared.faults.EntryError.EntryError, declared.faults.PlanError.PlanError};

use ason_base::OutOfMemory;
use std::alloc::{AllocError, AllocFailed};

/// What part of a plan is at fault. Parts count from 1.
#[derive(Clone, Copy, Drop)]
pub enum PlanEntry {
    /// The text as a whole.
    Toml,
    /// The top table.
    Top,
    /// A table of `node`.
    Node(u32),
    /// A table of `link`.
    Link(u32),
    /// A line of `script`.
    Script(u32),
}

/// What is wrong with a part of a plan.
#[derive(Clone, Copy, Drop)]
pub enum PlanKind {
    /// The bytes aren't UTF-8, or no TOML.
    Syntax,
    /// A table has an unknown key.
    Key,
    /// A key is missing.
    Missing,
    /// A value has another TOML type.
    Kind,
    /// There are too few or too many of something.
    Count,
    /// A number is outside its range.
    Range,
    /// A name is no name.
    Name,
    /// An id isn't above the one before.
    Order,
    /// A name or an SRLG is there twice.
    Twice,
    /// An end of a link is unknown, or both are the same.
    Ends,
    /// The words are no line.
    Words,
    /// A node is unknown.
    Node,
    /// A call's ends are the same.
    Same,
    /// A setup has a used name, or another command a name that no setup has.
    Call,
    /// Links are unknown or make no route.
    Route,
    /// A backup route isn't beside its working route.
    Backup,
    /// No link is of that group.
    Group,
    /// Two nodes aren't neighbours.
    Channel,
    /// Bytes aren't hexadecimal.
    Hex,
    /// Noise spells a frame.
    Spells,
}

/// The first fault of a plan.
#[derive(Clone, Copy, Drop)]
pub struct PlanFault {
    pub entry: PlanEntry,
    pub kind: PlanKind,
}

/// Why there is no plan.
#[derive(Clone, Copy, Drop)]
pub enum PlanError {
    Fault(PlanFault),
    OutOfMemory,
}

impl From<OutOfMemory> for PlanError {
    ghost from_gives = { λ _ error. error ≡ PlanError.OutOfMemory };

    fn from(_: OutOfMemory) -> PlanError {
        PlanError::OutOfMemory
    }
}

impl From<AllocError> for PlanError {
    ghost from_gives = { λ _ error. error ≡ PlanError.OutOfMemory };

    fn from(_: AllocError) -> PlanError {
        PlanError::OutOfMemory
    }
}

impl<T: Drop> From<AllocFailed<T>> for PlanError {
    ghost from_gives = { λ _ error. error ≡ PlanError.OutOfMemory };

    fn from(_: AllocFailed<T>) -> PlanError {
        PlanError::OutOfMemory
    }
}

/// Why a part of a plan isn't read.
#[derive(Clone, Copy, Drop)]
pub enum EntryError {
    Fault(PlanKind),
    OutOfMemory,
}

impl From<OutOfMemory> for EntryError {
    ghost from_gives = { λ _ error. error ≡ EntryError.OutOfMemory };

    fn from(_: OutOfMemory) -> EntryError {
        EntryError::OutOfMemory
    }
}

/// The same error, of this entry.
pub fn error_at(entry: PlanEntry, error: EntryError) -> PlanError
    ensures { result ≡ error_at entry error }
{
    match error {
        EntryError::Fault(kind) => PlanError::Fault(PlanFault { entry, kind }),
        EntryError::OutOfMemory => PlanError::OutOfMemory,
    }
}

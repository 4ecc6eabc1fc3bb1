//! How a command ended.

ghost use Rattle.std.specs.Prelude.{◌≡◌};
ghost use Rattle.commands.specs.Replies.{exit_status};

/// How a command ended, with the process's exit status as its number.
#[derive(Clone, Copy, Drop)]
pub enum Status {
    /// The plan was run and its tables written, or its trace, its survey, its routes, its best pair, what the messages
    /// say, or what became of a generated plan's calls: 0.
    Done,
    /// The input is no trace of a run: 1.
    NotRun,
    /// The words have no meaning; nothing was read: 2.
    Usage,
    /// The input is no plan: 3.
    PlanRefused,
    /// The input could not be read to its end: 4.
    ReadFault,
    /// The output could not be written as a whole: 5.
    WriteFault,
    /// A node came to the limit of its events: 6.
    EventLimit,
    /// Want of memory: 7.
    OutOfMemory,
    /// The input has more than 4,194,304 bytes: 8.
    TooLong,
}

impl Status {
    /// The exit status of the process.
    pub fn code(self) -> u8
        ensures { result ≡ exit_status self }
    {
        match self {
            Status::Done => 0,
            Status::NotRun => 1,
            Status::Usage => 2,
            Status::PlanRefused => 3,
            Status::ReadFault => 4,
            Status::WriteFault => 5,
            Status::EventLimit => 6,
            Status::OutOfMemory => 7,
            Status::TooLong => 8,
        }
    }
}

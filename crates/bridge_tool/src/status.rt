//! How a run ends.

ghost use Rattle.std.specs.Prelude.{◌≡◌};
ghost use Rattle.bridge_tool.specs.Statuses.{code_of};

/// How a run ends. Each way has a number, which is the status of the program.
#[derive(Clone, Copy)]
pub enum Status {
    /// 0: what was asked for is printed: the page of accepted declarations, the links, an explanation, or the summary of made declarations.
    Accepted,
    /// 1: the declarations break rules, and reports are printed.
    Refused,
    /// 2: the bytes aren't declarations, and one line is printed.
    NotDeclarations,
    /// 3: a read failed.
    ReadFailed,
    /// 4: a write failed.
    WriteFailed,
    /// 5: memory ran out.
    NoMemory,
    /// 6: the words are no command, or ask about something that accepted declarations don't have.
    BadWords,
    /// 7: the source gave more than 2^26 bytes.
    TooLong,
}

impl Status {
    /// The number, at most 7.
    pub fn code(self) -> u8
        ensures { result ≡ code_of self }
    {
        match self {
            Status::Accepted => 0,
            Status::Refused => 1,
            Status::NotDeclarations => 2,
            Status::ReadFailed => 3,
            Status::WriteFailed => 4,
            Status::NoMemory => 5,
            Status::BadWords => 6,
            Status::TooLong => 7,
        }
    }
}

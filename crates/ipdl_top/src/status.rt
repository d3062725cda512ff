//! How a call of the program ends.

/// How a call of the program ends (docs/theorems.md, "The answer").
#[derive(Clone, Copy, Debug, PartialEq, Eq)]
pub enum Status {
    /// The command did its work.
    Done,
    /// The report is not empty.
    Broken,
    /// The words are not a command.
    Usage,
    /// A read failed.
    ReadFault,
    /// A write failed.
    WriteFault,
    /// A side of the history that was printed has something to do, but already has the most events.
    Spent,
    /// Memory ran out.
    NoMemory,
    /// The script breaks a rule.
    BadScript,
    /// The file of frames is missing, has more bytes than a file may have, or is not a list of frames.
    BadFrames,
    /// The text to audit is missing, has more bytes than a text may have, or is not one that a run prints.
    BadTranscript,
}

impl Status {
    ghost use Rattle.std.specs.Prelude.{◌≡◌};
    ghost use Rattle.ipdl_top.specs.Codes.{code_of};

    /// Returns the number with which the process ends.
    pub fn code(self) -> u8
        ensures { result ≡ code_of self }
    {
        match self {
            Status::Done => 0,
            Status::Broken => 1,
            Status::Usage => 2,
            Status::ReadFault => 3,
            Status::WriteFault => 4,
            Status::Spent => 5,
            Status::NoMemory => 6,
            Status::BadScript => 7,
            Status::BadFrames => 8,
            Status::BadTranscript => 9,
        }
    }
}

//! The list of reads. Its functions do nothing when they run.
ghost use Rattle.std.specs.Prelude.{◌≡◌, ◌++◌, List, []};
ghost use Rattle.std.specs.Borrow.{ftrue};
ghost use Rattle.file_log.specs.Entries.{ReadEntry, log_code};

use ipdl_base::{Failure, FileBytes};
use std::marker::Model;

/// The results of reads, in order. Only contracts see them, and a value of this type has no bytes.
#[derive(Drop)]
pub struct ReadLog {
    pub ghost entries: { List ReadEntry } by { log_code },
}

impl Model for ReadLog {
    ghost also_owns = { λ _. ftrue };
}

/// One read: its name, the most bytes that it asks for, and its result.
#[derive(Clone, Copy, Drop)]
pub struct FileRead<'r> {
    /// The name that is read.
    pub name: &'r str,
    /// The most bytes that the read gives.
    pub limit: usize,
    /// The result of the read.
    pub found: &'r Result<FileBytes, Failure>,
}

// A log takes no memory.
const _: () = prove!(size_of::<ReadLog>() == 0);

impl ReadLog {
    ghost use Rattle.file_log.specs.Log.{entries_of};

    /// Creates a log of no reads.
    pub fn new() -> ReadLog
        ensures { result.entries ≡ [] }
    {
        ReadLog {}
    }

    /// Returns the log of these reads and then this one, which is left out if it ran out of memory.
    pub fn then(&self, _read: &FileRead<'_>) -> ReadLog
        ensures { result.entries ≡ self.now.entries ++ entries_of _read.now.name.now _read.now.limit _read.now.found.now }
    {
        ReadLog {}
    }
}

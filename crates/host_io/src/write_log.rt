//! The list of written bytes. Its functions do nothing when they run.
ghost use Rattle.std.specs.Prelude.{◌≡◌, ℕ, ◌++◌, List, []};
ghost use Rattle.std.specs.Borrow.{ftrue};
ghost use Rattle.std.specs.Coded.{coded_list, coded_ℕ};

use std::marker::Model;

/// The bytes that writes took, in order. Only contracts see them, and a value of this type has no bytes.
#[derive(Drop)]
pub struct WriteLog {
    pub ghost bytes: { List ℕ } by { coded_list coded_ℕ },
}

impl Model for WriteLog {
    ghost also_owns = { λ _. ftrue };
}

// A log takes no memory.
const _: () = prove!(size_of::<WriteLog>() == 0);

/// One write: the bytes that it took.
#[derive(Clone, Copy, Drop)]
pub struct StreamWrite<'w> {
    /// The bytes that the write took.
    pub taken: &'w [u8],
}

impl WriteLog {
    /// Creates a log of no bytes.
    pub fn new() -> WriteLog
        ensures { result.bytes ≡ [] }
    {
        WriteLog {}
    }

    /// Returns the log of these bytes and then those of this write.
    pub fn then(&self, _write: &StreamWrite<'_>) -> WriteLog
        ensures { result.bytes ≡ self.now.bytes ++ _write.now.taken.now }
    {
        WriteLog {}
    }
}

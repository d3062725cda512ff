//! Files that can be read by name, and what a read gives.
ghost use Rattle.std.specs.Prelude.{◌≡◌, ℕ, ◌≤◌, Option, Some, Err, IfOk, IfSome};

use std::alloc::{AllocError, AllocFailed, Global};

/// The most bytes that are read of a file. A text to audit has a bound of its own.
pub const MOST_BYTES: usize = 1_048_576;

/// The result of a read by name that gives at most a number of bytes.
#[derive(Debug, Drop)]
pub enum FileBytes {
    /// There is no file of this name.
    Absent,
    /// The file has more bytes.
    Larger,
    /// The file has these bytes.
    Bytes(Vec<u8>),
}

impl FileBytes {
    ghost use Rattle.ipdl_base.specs.Outside.{HasAtMost, IsHeldWithin};

    /// Returns what a read gives of a file of these bytes, of which at most `limit` are read. Fails only if memory
    /// runs out.
    pub fn of_bytes(alloc: Global, bytes: &[u8], limit: usize) -> Result<FileBytes, AllocError>
        ensures small { IfOk result (HasAtMost limit) }
        ensures held { IfOk result (IsHeldWithin limit (Some bytes.now)) }
    {
        if bytes.len() > limit {
            return Ok(FileBytes::Larger);
        }
        Ok(FileBytes::Bytes(Vec::from_slice(alloc, bytes)?))
    }
}

/// Why a call that reads files fails.
#[derive(Clone, Copy, Debug, PartialEq, Eq)]
pub enum Failure {
    /// A read failed.
    ReadFault,
    /// Memory ran out.
    NoMemory,
}

impl From<AllocError> for Failure {
    ghost use Rattle.ipdl_base.specs.declared.files.Failure.TheVariants.{NoMemory};

    ghost from_gives = { λ _ failure. failure ≡ NoMemory };

    fn from(_error: AllocError) -> Failure {
        Failure::NoMemory
    }
}

impl<T: Drop> From<AllocFailed<T>> for Failure {
    ghost use Rattle.ipdl_base.specs.declared.files.Failure.TheVariants.{NoMemory};

    ghost from_gives = { λ _ failure. failure ≡ NoMemory };

    fn from(_failed: AllocFailed<T>) -> Failure {
        Failure::NoMemory
    }
}

/// Files that can be read by name (docs/theorems.md, "The outside").
pub trait Files {
    ghost use Rattle.ipdl_base.specs.Outside.{FileMap, Rose, HasAtMost, IsHeldWithin};

    /// The bytes of each name, if they are known. They never change.
    ghost known: { Self → Option FileMap };

    /// The number of reads that have failed.
    ghost faults: { Self → ℕ };

    /// Reads the file of this name, and gives at most `limit` bytes of it.
    ///
    /// # Errors
    ///
    /// `Failure::ReadFault` if the read failed, and `Failure::NoMemory` if memory ran out.
    fn read(&mut self, alloc: Global, name: &str, limit: usize) -> Result<FileBytes, Failure>
        ensures map { known self.new ≡ known self.old }
        ensures count { faults self.old ≤ faults self.new }
        ensures failed { result ≡ Err Failure.ReadFault → Rose (faults self.old) (faults self.new) }
        ensures small { IfOk result (HasAtMost limit) }
        ensures held { IfOk result (λ found. IfSome (known self.old) (λ files. IsHeldWithin limit (files name.now) found)) };
}

//! Files of any kind, with a record of their reads.
ghost use Rattle.std.specs.Prelude.{◌≡◌, ◌≤◌, ◌++◌, [], Err, IfOk, IfSome};
ghost use Rattle.ipdl_base.specs.Outside.{HasAtMost, IsHeldWithin, Rose};
ghost use Rattle.file_log.specs.Log.{entries_of};

use crate::read_log::{FileRead, ReadLog};
use ipdl_base::{Failure, FileBytes, Files};
use std::alloc::Global;

/// Files with the results of their reads. Each read goes through `read`, which records it.
#[derive(Drop)]
pub struct RecordedFiles<F> {
    files: F,
    log: ReadLog,
}

// The record adds nothing to the size of the files.
const _: () = prove!(size_of::<RecordedFiles<u64>>() == size_of::<u64>());

impl<F: Files> RecordedFiles<F> {
    /// Wraps files with an empty record.
    pub fn new(files: F) -> RecordedFiles<F>
        ensures files { result.files ≡ files }
        ensures log { result.log.entries ≡ [] }
    {
        RecordedFiles {
            files,
            log: ReadLog::new(),
        }
    }

    /// Returns the files.
    pub fn files(&self) -> &F
        ensures { result.now ≡ self.now.files }
    {
        &self.files
    }

    /// Reads the file of this name, gives at most `limit` bytes of it, and records the result.
    ///
    /// # Errors
    ///
    /// `Failure::ReadFault` if the read failed, which is recorded, and `Failure::NoMemory` if memory ran out, which is not.
    pub fn read(&mut self, alloc: Global, name: &str, limit: usize) -> Result<FileBytes, Failure>
        ensures map { F.known self.new.files ≡ F.known self.old.files }
        ensures count { F.faults self.old.files ≤ F.faults self.new.files }
        ensures failed { result ≡ Err Failure.ReadFault → Rose (F.faults self.old.files) (F.faults self.new.files) }
        ensures small { IfOk result (HasAtMost limit) }
        ensures held { IfOk result (λ found. IfSome (F.known self.old.files) (λ files. IsHeldWithin limit (files name.now) found)) }
        ensures logged { self.new.log.entries ≡ self.old.log.entries ++ entries_of name.now limit result }
    {
        let found = self.files.read(alloc, name, limit);
        self.log = self.log.then(&FileRead {
            name,
            limit,
            found: &found,
        });
        found
    }
}

//! Real files. No contract says what is on a disk; the contract of a read says that it gives all bytes that it got.
ghost use Rattle.std.specs.Prelude.{◌≡◌, ◌<◌, IfOk, IfSome, None, Some, length};
ghost use Rattle.ipdl_base.specs.Outside.{HasAtMost, IsHeldWithin};
ghost use Rattle.host_io.specs.OpenedFiles.{IsFoundIn};

use ipdl_base::{Failure, FileBytes, Files};
use std::alloc::Global;
use std::fs::File;
use std::io::{ErrorKind, Read};

/// The real files. Counts the reads that fail with another error than that the file does not exist.
#[derive(Drop)]
pub struct RealFiles<'r, R> {
    rt: &'r R,
    faults: u64,
    /// The buffer for a piece of a file.
    piece: [u8; 4096],
}

impl<'r, R: std::rt::Files> RealFiles<'r, R> {
    /// Creates the files of this runtime, with no failed reads.
    pub fn new(rt: &'r R) -> RealFiles<'r, R> {
        RealFiles {
            rt,
            faults: 0,
            piece: [0; 4096],
        }
    }
}

/// Reads the rest of a file, at most `limit` bytes.
///
/// # Errors
///
/// `Failure::ReadFault` if a read failed, and `Failure::NoMemory` if memory ran out.
fn read_all<F: Read>(
    alloc: Global,
    file: &mut F,
    piece: &mut [u8],
    limit: usize,
) -> Result<FileBytes, Failure>
    requires { 0 < length piece.old }
    ensures small { IfOk result (HasAtMost limit) }
    ensures bytes { IfOk result (λ found. IfSome (F.remaining file.old) (λ bytes. IsHeldWithin limit (Some bytes) found)) }
{
    let mut bytes = Vec::new(alloc);
    'pieces: for _ in 0..u64::MAX {
        let n = match file.read(piece) {
            Ok(0) => return Ok(FileBytes::Bytes(bytes)),
            Ok(n) => n,
            Err(error) if error.kind() == ErrorKind::Interrupted => continue,
            Err(_) => return Err(Failure::ReadFault),
        };
        if n > limit.saturating_sub(bytes.len()) {
            return Ok(FileBytes::Larger);
        }
        bytes.extend_from_slice(&piece[..n])?;
    }
    Err(Failure::ReadFault)
}

/// Opens the file of this name, if it exists.
///
/// # Errors
///
/// `Failure::NoMemory` if the system reports that memory ran out, and otherwise `Failure::ReadFault`.
fn open_file<R: std::rt::Files>(rt: &R, name: &str) -> Result<Option<R::File>, Failure> {
    match File::open(rt, name) {
        Ok(file) => Ok(Some(file)),
        Err(error) if error.kind() == ErrorKind::NotFound => Ok(None),
        Err(error) if error.kind() == ErrorKind::OutOfMemory => Err(Failure::NoMemory),
        Err(_) => Err(Failure::ReadFault),
    }
}

/// Reads an opened file, at most `limit` bytes, or returns that there is no file.
///
/// # Errors
///
/// Those of [`read_all`].
fn read_opened<F: Read + Drop>(
    alloc: Global,
    opened: Option<F>,
    piece: &mut [u8],
    limit: usize,
) -> Result<FileBytes, Failure>
    requires { 0 < length piece.old }
    ensures small { IfOk result (HasAtMost limit) }
    ensures found { IfOk result (IsFoundIn F.remaining opened limit) }
{
    match opened {
        Some(mut file) => read_all(alloc, &mut file, piece, limit),
        None => Ok(FileBytes::Absent),
    }
}

/// Reads the file of this name, if it exists.
///
/// # Errors
///
/// Those of [`open_file`] and [`read_all`].
fn read_file<R: std::rt::Files>(
    rt: &R,
    alloc: Global,
    name: &str,
    piece: &mut [u8],
    limit: usize,
) -> Result<FileBytes, Failure>
    requires { 0 < length piece.old }
    ensures { IfOk result (HasAtMost limit) }
{
    read_opened(alloc, open_file(rt, name)?, piece, limit)
}

impl<R: std::rt::Files> Files for RealFiles<'_, R> {
    ghost known = { λ _. None };

    ghost faults = { λ f. f.faults };

    fn read(&mut self, alloc: Global, name: &str, limit: usize) -> Result<FileBytes, Failure> {
        let found = read_file(self.rt, alloc, name, &mut self.piece, limit);
        if matches!(&found, Err(Failure::ReadFault)) {
            self.faults = self.faults.saturating_add(1);
        }
        found
    }
}

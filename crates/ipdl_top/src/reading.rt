//! The reads of a call, in their order: the files of a program, the sync list, the script and the input.
ghost use Rattle.std.specs.Prelude.{◌≡◌, ◌≤◌, Err, IfOk, IfSome, map, string_bytes};
ghost use Rattle.std.specs.Option.{option_copied};
ghost use Rattle.file_log.specs.Log.{EndsWithReads, ForReads};
ghost use Rattle.file_log.specs.Recorded.{files_of, reads_of};
ghost use Rattle.include_graph.specs.Keys.{AreFileWords};
ghost use Rattle.ipdl_base.specs.Outside.{HasAtMost, IsHeldWithin, Rose};
ghost use Rattle.ipdl_top.specs.FileViews.{ForViews};
ghost use Rattle.ipdl_top.specs.FilesFound.{AreNamedFound, named_view};

use crate::checked::CheckResult;
use crate::command_files::NamedFiles;
use crate::compile::checked_of;
use file_log::RecordedFiles;
use include_graph::load;
use ipdl_base::{Failure, FileBytes, Files, MOST_BYTES};
use std::alloc::Global;

/// What was found of the files that a command reads.
#[derive(Drop)]
pub struct FoundFiles {
    /// What was found of the program and its sync list.
    pub checked: CheckResult,
    /// The script, or `FileBytes::Absent` if the command names no script.
    pub script: FileBytes,
    /// The input, or `FileBytes::Absent` if the command names no input.
    pub input: FileBytes,
}

/// Reads the file of this name, if it has at most `limit` bytes. Without a name nothing is read, and the result is
/// `FileBytes::Absent`.
///
/// # Errors
///
/// `Failure::ReadFault` if the read fails, and `Failure::NoMemory` if memory runs out.
fn read_if_named<F: Files>(
    alloc: Global,
    files: &mut RecordedFiles<F>,
    name: Option<&str>,
    limit: usize,
) -> Result<FileBytes, Failure>
    ensures reads { IfOk result (λ found. ForReads (F.known (files_of files.old)) (reads_of files.old) (reads_of files.new)
        (λ map'. IfSome (option_copied name.entry) (λ word. IsHeldWithin limit (map' word) found))) }
    ensures small { IfOk result (HasAtMost limit) }
    ensures ended { EndsWithReads result (reads_of files.old) (reads_of files.new) }
    ensures told { F.known (files_of files.new) ≡ F.known (files_of files.old) }
    ensures count { F.faults (files_of files.old) ≤ F.faults (files_of files.new) }
    ensures read_fault { result ≡ Err Failure.ReadFault → Rose (F.faults (files_of files.old)) (F.faults (files_of files.new)) }
{
    match name {
        Some(name) => files.read(alloc, name, limit),
        None => Ok(FileBytes::Absent),
    }
}

/// Reads the files of these names: the program and what it includes, then the sync list, the script and the input, if they are
/// named. All of them are read, whatever rules the files before them break.
///
/// # Errors
///
/// `Failure::ReadFault` if a read fails, after which nothing more is read, and `Failure::NoMemory` if memory runs out.
pub fn read_named<F: Files>(
    alloc: Global,
    files: &mut RecordedFiles<F>,
    named: &NamedFiles<'_>,
) -> Result<FoundFiles, Failure>
    requires { AreFileWords (map string_bytes named.now.program.now) }
    ensures reads { IfOk result (λ found. ForViews (F.known (files_of files.old)) (reads_of files.old) (reads_of files.new)
        (λ seen. AreNamedFound (named_view named.now) seen found)) }
    ensures ended { EndsWithReads result (reads_of files.old) (reads_of files.new) }
    ensures read_fault { result ≡ Err Failure.ReadFault → Rose (F.faults (files_of files.old)) (F.faults (files_of files.new)) }
{
    let loaded = load(alloc, files, named.program, named.path)?;
    let list = read_if_named(alloc, files, named.list, MOST_BYTES)?;
    let checked = checked_of(alloc, loaded, named.list, &list)?;
    let script = read_if_named(alloc, files, named.script, MOST_BYTES)?;
    let input = read_if_named(alloc, files, named.input, named.input_limit)?;
    Ok(FoundFiles {
        checked,
        script,
        input,
    })
}

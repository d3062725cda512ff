//! The sync list, as a file after those of the program.
ghost use Rattle.std.specs.Prelude.{◌≡◌, ◌≤◌, IfOk, IfSome, Some, Option, List, ℕ, length};
ghost use Rattle.std.specs.Option.{option_copied};
ghost use Rattle.ipdl_base.specs.Outside.{FileMap};
ghost use Rattle.ipdl_base.specs.declared.files.TheConstants.{MOST_BYTES};
ghost use Rattle.ipdl_top.specs.Steps.{IsFound, IsHeld, IsListed, IsSmall};

use ipdl_base::{FileBytes, Finding, Place, Rule};
use std::alloc::{AllocError, Global};
use sync_list::{ListFault, SyncList, read_list};

/// What was found of the sync list of a command, if it names one.
#[derive(Drop)]
pub enum SyncListFile {
    /// The sections of the list, or `None` if no list is named.
    Sections(Option<SyncList>),
    /// The list breaks a rule on files.
    Broken(Finding),
}

/// Returns that the list breaks a rule at this line and column of the file of this number.
fn broken_at(rule: Rule, file: u32, line: u32, column: u32) -> SyncListFile
    ensures { result ≡ SyncListFile.Broken (record { place = record { file = file; line = line; column = column }; rule = rule }) }
{
    let place = Place { file, line, column };
    SyncListFile::Broken(Finding { place, rule })
}

/// Reads a list of these bytes, as the file of this number. Fails only if memory runs out.
fn listed_of_bytes(alloc: Global, bytes: &[u8], number: u32) -> Result<SyncListFile, AllocError>
    requires { length bytes.now ≤ MOST_BYTES }
    ensures { IfOk result (IsFound (Some bytes.now) number) }
{
    match read_list(alloc, bytes) {
        Ok(sections) => Ok(SyncListFile::Sections(Some(sections))),
        Err(ListFault::Line(line)) => Ok(broken_at(Rule::SYNTAX_FAULT, number, line, 1)),
        Err(ListFault::NoMemory) => Err(AllocError),
    }
}

/// Classifies the sync list by what reading it gave, as the file of this number. Fails only if memory runs out.
fn listed_of_found(
    alloc: Global,
    found: &FileBytes,
    number: u32,
) -> Result<SyncListFile, AllocError>
    requires { IsSmall found.now }
    ensures { IfOk result (λ listed. (held : Option (List ℕ)) → IsHeld held found.now → IsFound held number listed) }
{
    match found {
        FileBytes::Absent => Ok(broken_at(Rule::FILE_NOT_FOUND, number, 0, 0)),
        FileBytes::Larger => Ok(broken_at(Rule::TOO_LARGE, number, 0, 0)),
        FileBytes::Bytes(bytes) => listed_of_bytes(alloc, bytes.as_slice(), number),
    }
}

/// Classifies the sync list of a command, if it names one, by what reading it gave, as the file of this number. Fails only if
/// memory runs out.
pub fn listed_of(
    alloc: Global,
    list: Option<&str>,
    found: &FileBytes,
    number: u32,
) -> Result<SyncListFile, AllocError>
    requires { IsSmall found.now }
    ensures { IfOk result (λ listed. (lists : FileMap) → IfSome (option_copied list.entry) (λ name. IsHeld (lists name) found.now)
        → IsListed lists (option_copied list.entry) number listed) }
{
    match list {
        Some(_) => listed_of_found(alloc, found, number),
        None => Ok(SyncListFile::Sections(None)),
    }
}

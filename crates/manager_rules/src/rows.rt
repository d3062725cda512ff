//! For each file, the protocols that its protocol names.

ghost use Rattle.std.specs.Prelude.{◌≡◌, ◌≢◌, ◌↔◌, ◌≤◌, ℕ, length, slice_get, IfOk, IfSome, IfNone, IsTrue, nat_eq};
ghost use Rattle.std.specs.HashSet.{IsFromIterResult};
ghost use Rattle.std.specs.List.{Any, Contains};
ghost use Rattle.std.specs.Option.{option_copied};
ghost use Rattle.name_table.specs.Decls.{FindsNoProtocol, FindsOneProtocol};
ghost use Rattle.manager_rules.specs.Rows.{IsRow, AreRows};

use crate::side::Relation;
use ipdl_base::Name;
use ipdl_syntax::{Entry, NameAt};
use name_table::{DeclId, Found, Names};
use std::alloc::{AllocError, Global};
use std::collections::HashSet;

/// The files of the protocols that a file's protocol names.
#[derive(Drop)]
pub struct ManagerRow {
    /// Their numbers, in text order.
    pub files: Vec<u32>,
    /// The same numbers.
    pub set: HashSet<u32>,
}

/// Returns whether a name finds no protocol in a file.
pub fn finds_none(names: &Names<'_>, file: u32, name: &Name) -> bool
    ensures { IsTrue result ↔ FindsNoProtocol names.now file name.now }
{
    matches!(names.find_protocol(file, name), Found::None)
}

/// Returns the file of a protocol, or `None` for any other declaration.
fn file_of(id: DeclId) -> Option<u32>
    ensures some { IfSome result (λ file. id ≡ DeclId.Protocol file) }
    ensures none { IfNone result ((file : ℕ) → id ≢ DeclId.Protocol file) }
{
    match id {
        DeclId::Protocol(file) => Some(file),
        _ => None,
    }
}

/// Returns the file of the protocol that a name finds in a file, or `None` if the name does not
/// find exactly one.
pub fn find_one(names: &Names<'_>, file: u32, name: &Name) -> Option<u32>
    ensures some { IfSome result (FindsOneProtocol names.now file name.now) }
    ensures none { IfNone result ((other : ℕ) → ¬ FindsOneProtocol names.now file name.now other) }
{
    match names.find_protocol(file, name) {
        Found::One(id) => file_of(id),
        Found::None => None,
        Found::Many(_, _) => None,
    }
}

/// Returns the files of the protocols that these names find in a file. A name that does not find
/// exactly one is left out.
fn files_of(
    alloc: Global,
    names: &Names<'_>,
    file: u32,
    list: &[NameAt],
) -> Result<Vec<u32>, AllocError>
    ensures { IfOk result (λ files. (other : ℕ) → Contains files.items other ↔ Any (λ n. FindsOneProtocol names.now file n.name other) list.now) }
{
    let mut files = Vec::new(alloc);
    for name in list {
        if let Some(other) = find_one(names, file, &name.name) {
            files.push(other)?;
        }
    }
    Ok(files)
}

/// Returns the set of these numbers.
fn set_of(alloc: Global, files: &[u32]) -> Result<HashSet<u32>, AllocError>
    ensures { IfOk result (IsFromIterResult nat_eq files.now) }
{
    files.iter().copied().collect(alloc)
}

/// Returns the row of these names in a file.
fn row_of(
    alloc: Global,
    names: &Names<'_>,
    file: u32,
    list: &[NameAt],
) -> Result<ManagerRow, AllocError>
    ensures { IfOk result (IsRow (λ other. Any (λ n. FindsOneProtocol names.now file n.name other) list.now)) }
{
    let files = files_of(alloc, names, file, list)?;
    let set = set_of(alloc, files.as_slice())?;
    Ok(ManagerRow { files, set })
}

/// Returns for each file of a program the row of the names that its protocol has in this relation.
pub fn rows(
    alloc: Global,
    program: &[Entry],
    names: &Names<'_>,
    side: Relation,
) -> Result<Vec<ManagerRow>, AllocError>
    requires few { length program.now ≤ 4096 }
    requires of_program { names.now ≡ program.now }
    ensures { IfOk result (λ rows. AreRows side program.now rows.items) }
{
    let mut rows = Vec::new(alloc);
    for (file, entry) in program.iter().enumerate() {
        rows.push(row_of(alloc, names, file as u32, side.names_in(entry))?)?;
    }
    Ok(rows)
}

/// Returns the row of a file, or `None`.
pub fn row_at(rows: &[ManagerRow], file: u32) -> Option<&ManagerRow>
    ensures { option_copied result ≡ slice_get rows.now file }
{
    rows.get(file as usize)
}

//! For each file of a program, the files that are reached from it.

ghost use Rattle.std.specs.Prelude.{◌≡◌, ◌<◌, ◌≤◌, ◌↔◌, ◌⊎◌, ◌∷◌, [], ℕ, List, None, length, IfOk, IfSome, IsTrue, OnOk};
ghost use Rattle.std.specs.List.{Contains};
ghost use Rattle.ipdl_syntax.specs.declared.program.Entry.{Entry};
ghost use Rattle.name_table.specs.Marks.{AreFilesOf, AreMarksOf, AreSights, IsSight, Joins, Marks, Reaches};

use ipdl_syntax::Entry;
use std::alloc::{AllocError, Global};

/// The most files that are stored as a list.
const FEW: usize = 8;

/// The files that are reached from one file.
#[derive(Drop)]
pub enum Reach {
    /// The numbers of the reached files.
    Few(Vec<u32>),
    /// For each file of the program, whether it is reached.
    Many(Vec<bool>),
}

/// Returns whether a number is among others.
fn is_among(files: &[u32], file: u32) -> bool
    ensures { IsTrue result ↔ Contains files.now file }
{
    files.contains(&file)
}

/// Returns whether a file is marked.
fn is_marked(marks: &[bool], file: usize) -> bool
    ensures { (program : List Entry) (from : ℕ) → AreMarksOf program from marks.now → IsTrue result ↔ Reaches program from file }
{
    match marks.get(file) {
        Some(mark) => *mark,
        None => false,
    }
}

impl Reach {
    /// Returns whether a file is reached.
    pub fn has(&self, file: u32) -> bool
        ensures { (program : List Entry) (from : ℕ) → IsSight program from self.now → IsTrue result ↔ Reaches program from file }
    {
        match self {
            Reach::Few(files) => is_among(files.as_slice(), file),
            Reach::Many(marks) => is_marked(marks.as_slice(), file as usize),
        }
    }
}

/// Appends a file if its number is below `count` and not in the list yet.
fn join(file: u32, count: usize, files: &mut Vec<u32>) -> Result<(), AllocError>
    ensures { OnOk result (Joins count (file ∷ []) files.old.items files.new.items) }
{
    if (file as usize) < count && !is_among(files.as_slice(), file) {
        files.push(file)?;
    }
    Ok(())
}

/// Appends files, each if its number is below `count` and not in the list yet.
fn join_all(these: &[u32], count: usize, files: &mut Vec<u32>) -> Result<(), AllocError>
    ensures { OnOk result (Joins count these.now files.old.items files.new.items) }
{
    for file in these {
        join(*file, count, files)?;
    }
    Ok(())
}

/// Returns whether the includes of a file are followed: those of the file at which the search
/// began, and those of headers.
fn is_followed(entry: &Entry, file: usize, from: usize) -> bool
    ensures { IsTrue result ↔ ((file ≡ from) ⊎ (entry.now.unit.protocol ≡ None)) }
{
    file == from || entry.unit.protocol.is_none()
}

/// Returns the files that are reached from a file of a program, or `None` if they are more than a few.
fn few(alloc: Global, program: &[Entry], from: usize) -> Result<Option<Vec<u32>>, AllocError>
    requires within { from < length program.now }
    requires few { length program.now ≤ 4096 }
    ensures { IfOk result (λ found. IfSome found (λ files. AreFilesOf program.now from files.items)) }
{
    let mut files = Vec::new(alloc);
    files.push(from as u32)?;
    'files: for next in 0..FEW {
        let Some(file) = files.get(next) else {
            return Ok(Some(files));
        };
        let file = *file as usize;
        let Some(entry) = program.get(file) else {
            unreachable!()
        };
        if is_followed(entry, file, from) {
            join_all(entry.includes.as_slice(), program.len(), &mut files)?;
        }
    }
    Ok(None)
}

/// Marks a file, and adds it to the work if it had no mark. A number without a file gets no mark.
fn mark(file: usize, marks: &mut Vec<bool>, work: &mut Vec<usize>) -> Result<(), AllocError>
    ensures { OnOk result (Marks (file ∷ []) marks.old.items work.old.items marks.new.items work.new.items) }
{
    if file < marks.len() && !marks[file] {
        work.push(file)?;
        marks[file] = true;
    }
    Ok(())
}

/// Marks each of these files.
fn mark_all(files: &[u32], marks: &mut Vec<bool>, work: &mut Vec<usize>) -> Result<(), AllocError>
    ensures { OnOk result (Marks files.now marks.old.items work.old.items marks.new.items work.new.items) }
{
    for file in files {
        mark(*file as usize, marks, work)?;
    }
    Ok(())
}

/// Returns for each file whether it is reached from a file of a program.
fn sight(alloc: Global, program: &[Entry], from: usize) -> Result<Vec<bool>, AllocError>
    requires { from < length program.now }
    ensures { IfOk result (λ marks. AreMarksOf program.now from marks.items) }
{
    let mut marks = Vec::from_elem(alloc, false, program.len())?;
    let mut work = Vec::new(alloc);
    mark(from, &mut marks, &mut work)?;
    while let Some(file) = work.pop() {
        let Some(entry) = program.get(file) else {
            unreachable!()
        };
        if file == from || entry.unit.protocol.is_none() {
            mark_all(entry.includes.as_slice(), &mut marks, &mut work)?;
        }
    }
    Ok(marks)
}

/// Returns the files that are reached from a file of a program.
fn sight_of(alloc: Global, program: &[Entry], from: usize) -> Result<Reach, AllocError>
    requires within { from < length program.now }
    requires few { length program.now ≤ 4096 }
    ensures { IfOk result (IsSight program.now from) }
{
    match few(alloc, program, from)? {
        Some(files) => Ok(Reach::Few(files)),
        None => Ok(Reach::Many(sight(alloc, program, from)?)),
    }
}

/// Returns for each file of a program the files that are reached from it.
pub fn sights(alloc: Global, program: &[Entry]) -> Result<Vec<Reach>, AllocError>
    requires { length program.now ≤ 4096 }
    ensures { IfOk result (λ all. AreSights program.now all.items) }
{
    let mut all = Vec::new(alloc);
    for from in 0..program.len() {
        all.push(sight_of(alloc, program, from)?)?;
    }
    Ok(all)
}

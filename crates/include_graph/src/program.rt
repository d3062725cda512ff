//! Makes a program from the files that were reached.

ghost use Rattle.std.specs.Prelude.{◌≡◌, IfOk, length, map};
ghost use Rattle.std.specs.List.{AllByRecursion};
ghost use Rattle.include_graph.specs.declared.content.Content.TheVariants.{Read};
ghost use Rattle.include_graph.specs.Reading.{numbers_of as the_numbers_of, IsOfTree, IsEntryFrom, AreEntriesFrom};

use crate::content::Content;
use crate::read::SourceFile;
use crate::walk::{ReachedFile, Target};
use indexmap::IndexSet;
use ipdl_base::{Items, Name, Numbers, Texts};
use ipdl_syntax::{Entry, Program, Unit};
use std::alloc::{AllocError, Global};

/// Returns the numbers of the files that includes lead to.
fn numbers_of(alloc: Global, targets: &[Target]) -> Result<Numbers, AllocError>
    ensures { IfOk result (λ numbers. numbers ≡ the_numbers_of targets.now) }
{
    let mut numbers = Vec::new(alloc);
    for target in targets {
        if let Target::File(number) = target {
            numbers.push(*number)?;
        }
    }
    Ok(Items::from_vec(numbers))
}

/// Returns the tree of a content that has one.
fn unit_of(content: Content) -> Unit
    requires { IsOfTree content }
    ensures { content ≡ Read result }
{
    match content {
        Content::Read(unit) => unit,
        _ => unreachable!(),
    }
}

/// Returns the entry of a key from its file, which has a tree.
fn entry_of(alloc: Global, key: Name, file: ReachedFile) -> Result<Entry, AllocError>
    requires { IsOfTree file.source.content }
    ensures { IfOk result (IsEntryFrom key file) }
{
    let ReachedFile { source, targets } = file;
    let includes = numbers_of(alloc, targets.as_slice())?;
    let SourceFile { text, content } = source;
    Ok(Entry {
        key,
        name: text,
        unit: unit_of(content),
        includes,
    })
}

/// Returns the program of the files of these keys. Each file has a tree.
pub fn program_of(
    alloc: Global,
    keys: IndexSet<Name>,
    files: Vec<ReachedFile>,
) -> Result<Program, AllocError>
    requires size { length files.items ≡ length keys.keys }
    requires trees { AllByRecursion (λ f. IsOfTree f.source.content) files.items }
    ensures { IfOk result (AreEntriesFrom keys.keys files.items) }
{
    let mut keys = keys;
    let mut files = files;
    let mut program = Vec::with_capacity(alloc, files.len())?;
    while let Some(file) = files.pop() {
        let Some(key) = keys.pop() else {
            unreachable!()
        };
        program.push(entry_of(alloc, key, file)?)?;
    }
    program.reverse();
    Ok(Items::from_vec(program))
}

/// Returns the name of a file in a report.
fn name_of(file: ReachedFile) -> Name
    ensures { result ≡ file.source.text }
{
    let ReachedFile { source, .. } = file;
    let SourceFile { text, .. } = source;
    text
}

/// Returns the names of the files in a report.
pub fn names_of(alloc: Global, files: Vec<ReachedFile>) -> Result<Texts, AllocError>
    ensures { IfOk result (λ names. names ≡ map (λ f. f.source.text) files.items) }
{
    let mut names = Vec::new(alloc);
    for file in files {
        names.push(name_of(file))?;
    }
    Ok(Items::from_vec(names))
}

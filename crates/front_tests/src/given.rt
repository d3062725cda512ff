//! What the tests of the front end are given: words, files in memory, names and programs.

ghost use Rattle.std.specs.Prelude.{IfOk};
ghost use Rattle.ipdl_syntax.specs.Programs.{IsProgram, BearTheirNames};

use file_log::RecordedFiles;
use include_graph::{LoadResult, are_file_words, load};
use ipdl_base::{Failure, FileBytes, Files, Finding, Findings, Name};
use ipdl_syntax::Program;
use memory_files::MemoryFiles;
use std::alloc::{AllocError, Global};
use std::test::Fail;

/// Returns the words of a text, which spaces separate, as strings.
pub fn strings(alloc: Global, words: &str) -> Result<Vec<String>, AllocError> {
    let mut strings = Vec::new(alloc);
    for word in words.split(' ') {
        strings.push(String::from_str(alloc, word)?)?;
    }
    Ok(strings)
}

/// Returns a file with this name and text.
fn file(alloc: Global, name: &str, text: &str) -> Result<(String, Vec<u8>), AllocError> {
    let name = String::from_str(alloc, name)?;
    Ok((name, Vec::from_slice(alloc, text.as_bytes())?))
}

/// Returns files in memory from a text: each has its name after `@ `, and then its content. The
/// read with this number, counted from 1, fails.
pub fn files(alloc: Global, texts: &str, failing: u64) -> Result<MemoryFiles, AllocError> {
    let mut files = Vec::new(alloc);
    for piece in texts.split("@ ") {
        if let Some((name, text)) = piece.split_once("\n") {
            files.push(file(alloc, name, text)?)?;
        }
    }
    Ok(MemoryFiles::new(files, vec![in alloc; failing]?))
}

/// Returns a text as a name.
pub fn name(alloc: Global, text: &str) -> Result<Name, AllocError> {
    Name::from_slice(alloc, text.as_bytes())
}

/// Returns the text of a name.
pub fn text(name: &Name) -> &str {
    str::from_utf8(name.as_slice()).unwrap_or("no text")
}

/// Returns the program of these files, which breaks no rule on files.
pub fn program(alloc: Global, files: MemoryFiles, words: &str) -> Result<Program, Fail>
    ensures program { IfOk result IsProgram }
    ensures names { IfOk result BearTheirNames }
{
    let words = strings(alloc, words)?;
    let path = strings(alloc, ".")?;
    if !are_file_words(words.as_slice()) || words.len() > 4096 {
        return Err("no words of files".into());
    }
    let mut files = RecordedFiles::new(files);
    match load(alloc, &mut files, words.as_slice(), path.as_slice()) {
        Ok(LoadResult::Whole(program)) => Ok(program),
        _ => Err("no program".into()),
    }
}

/// Appends a finding as `LINE:COLUMN RULE`.
pub fn push_finding(finding: &Finding, out: &mut String) -> Result<(), AllocError> {
    let (place, rule) = (finding.place, finding.rule);
    let (letter, number) = (char::from(rule.letter), rule.number);
    write!(out, "{}:{} {letter}{number}", place.line, place.column)
}

/// Returns findings as text, each as `FILE:LINE:COLUMN RULE` and a space.
pub fn show(alloc: Global, findings: &Findings) -> Result<String, AllocError> {
    let mut shown = String::new(alloc);
    for finding in findings.as_slice() {
        write!(shown, "{}:", finding.place.file)?;
        push_finding(finding, &mut shown)?;
        shown.push(' ')?;
    }
    Ok(shown)
}

/// Records the result of a row if it is not the expected one.
pub fn note(row: &str, found: &str, wanted: &str, wrong: &mut String) -> Result<(), AllocError> {
    if found == wanted {
        Ok(())
    } else {
        writeln!(wrong, "{row}: {found}")
    }
}

/// Files in memory that record the names that are read, each with a space after it.
#[derive(Drop)]
pub struct NotedFiles {
    files: MemoryFiles,
    pub asked: String,
}

impl NotedFiles {
    /// Returns files of which nothing was read yet.
    pub fn new(alloc: Global, files: MemoryFiles) -> NotedFiles {
        NotedFiles {
            files,
            asked: String::new(alloc),
        }
    }
}

/// Appends a name and a space.
fn push_asked(asked: &mut String, name: &str) -> Result<(), AllocError> {
    asked.push_str(name)?;
    asked.push(' ')
}

impl Files for NotedFiles {
    ghost use Rattle.std.specs.Prelude.{Some};
    ghost use Rattle.memory_files.specs.Memory as memory;

    ghost known = { λ f. Some (memory.file_named f.files.files) };

    ghost faults = { λ f. f.files.faults };

    fn read(&mut self, alloc: Global, name: &str, limit: usize) -> Result<FileBytes, Failure> {
        push_asked(&mut self.asked, name)?;
        self.files.read(alloc, name, limit)
    }
}

//! Tests of loading the files that words reach.

use super::given::{NotedFiles, files, note, push_finding, strings, text};
use super::load_rows::LOADS;
use file_log::RecordedFiles;
use findings::sort_findings;
use include_graph::{BrokenFiles, LoadResult, are_file_words, load, one_reach};
use ipdl_base::{Failure, Finding, Texts as Names, key_of};
use ipdl_syntax::{Entry, Program};
use memory_files::MemoryFiles;
use std::alloc::{AllocError, Global};
use std::test::Fail;

/// Appends an entry as `KEY NAME`, and then the indices that its includes name.
fn push_entry(entry: &Entry, out: &mut String) -> Result<(), AllocError> {
    write!(out, "{} {}", text(&entry.key), text(&entry.name))?;
    for index in entry.includes.as_slice() {
        write!(out, " {index}")?;
    }
    out.push('\n')
}

/// Appends the entries of a program, each on a line.
fn push_program(program: &Program, out: &mut String) -> Result<(), AllocError> {
    for entry in program.as_slice() {
        push_entry(entry, out)?;
    }
    Ok(())
}

/// Appends a finding as `NAME:LINE:COLUMN RULE`.
fn push_named(finding: &Finding, names: &Names, out: &mut String) -> Result<(), AllocError> {
    let name = names.as_slice().get(finding.place.file as usize);
    write!(out, "{}:", name.map_or("no name", |name| text(name)))?;
    push_finding(finding, out)?;
    out.push('\n')
}

/// Appends the findings of broken files in order, each on a line.
fn push_broken(files: BrokenFiles, out: &mut String) -> Result<(), AllocError> {
    let BrokenFiles { findings, names } = files;
    let sorted = sort_findings(findings.into_vec());
    for finding in sorted.as_slice() {
        push_named(finding, &names, out)?;
    }
    Ok(())
}

/// Appends the result of a load.
fn push_answer(answer: Result<LoadResult, Failure>, out: &mut String) -> Result<(), AllocError> {
    match answer {
        Ok(LoadResult::Whole(program)) => push_program(&program, out),
        Ok(LoadResult::Broken(files)) => push_broken(files, out),
        Err(Failure::ReadFault) => out.push_str("read fault\n"),
        Err(Failure::NoMemory) => out.push_str("no memory\n"),
    }
}

/// Returns the result of loading these files with these words, and the names that are read.
fn load_all(
    alloc: Global,
    files: MemoryFiles,
    words: &str,
    path: &str,
) -> Result<(String, String), Fail> {
    let words = strings(alloc, words)?;
    let path = strings(alloc, path)?;
    if !are_file_words(words.as_slice()) || words.len() > 4096 {
        return Err("no words of files".into());
    }
    let mut files = RecordedFiles::new(NotedFiles::new(alloc, files));
    let mut shown = String::new(alloc);
    let answer = load(alloc, &mut files, words.as_slice(), path.as_slice());
    push_answer(answer, &mut shown)?;
    Ok((shown, files.files().asked.clone()?))
}

/// Records the row of a load if its result or the names that are read are not the expected ones.
fn check(alloc: Global, row: &str, wrong: &mut String) -> Result<(), Fail> {
    let (head, pieces) = row.split_once("@ ").unwrap_or((row, ""));
    let (_, head) = head.split_once("\n").ok_or("a row without words")?;
    let (words, head) = head.split_once("\n").ok_or("a row without a path")?;
    let (path, head) = head
        .split_once("\n")
        .ok_or("a row without its failing read")?;
    let (failing, head) = head.split_once("\n").ok_or("a row without names")?;
    let (names, wanted) = head.split_once("\n").ok_or("a row without its answer")?;
    let files = files(alloc, pieces, failing.parse::<u64>()?)?;
    let (shown, asked) = load_all(alloc, files, words, path)?;
    note(words, shown.as_str(), wanted, wrong)?;
    Ok(note(words, asked.as_str(), names, wrong)?)
}

/// Returns the rows of loads that differ from what they expect.
fn wrong_loads(alloc: Global) -> Result<String, Fail> {
    let mut wrong = String::new(alloc);
    for row in LOADS.split("====\n") {
        check(alloc, row, &mut wrong)?;
    }
    Ok(wrong)
}

#[test]
fn loads(rt: HostRuntime) -> Result<(), Fail> {
    one_reach();
    assert!(rt; key_of(b"one/two/PX.ipdl") == b"PX.ipdl".as_slice());
    assert_eq!(rt; wrong_loads(rt.alloc())?.as_str(), "");
    Ok(())
}

/// Returns a header of this number of blanks, and a protocol that includes it.
fn blanks(alloc: Global, count: usize) -> Result<MemoryFiles, Fail> {
    let mut files = Vec::new(alloc);
    let text = "include H;\nprotocol PA { };\n";
    files.push((
        String::from_str(alloc, "PA.ipdl")?,
        Vec::from_slice(alloc, text.as_bytes())?,
    ))?;
    files.push((
        String::from_str(alloc, "H.ipdlh")?,
        Vec::from_elem(alloc, b' ', count)?,
    ))?;
    Ok(MemoryFiles::new(files, Vec::new(alloc)))
}

/// Returns a protocol that includes this number of headers, and one that includes the last of them
/// and the first.
fn many_includes(alloc: Global, count: u32) -> Result<MemoryFiles, Fail> {
    let mut first = String::new(alloc);
    for n in 0..count {
        writeln!(first, "include H{n};")?;
    }
    first.push_str("protocol PA { };\n")?;
    let last = count.saturating_sub(1);
    let second = format!(in alloc; "include H{last};\ninclude H0;\nprotocol PB {{ }};\n")?;
    let mut files = Vec::new(alloc);
    files.push((String::from_str(alloc, "PA.ipdl")?, first.into_bytes()))?;
    files.push((String::from_str(alloc, "PB.ipdl")?, second.into_bytes()))?;
    Ok(MemoryFiles::new(files, Vec::new(alloc)))
}

/// Returns the result of loading a program with a header of this number of blanks.
fn loaded_blanks(alloc: Global, count: usize) -> Result<String, Fail> {
    let (shown, _) = load_all(alloc, blanks(alloc, count)?, "PA.ipdl", ".")?;
    Ok(shown)
}

/// Returns, for two words and includes of this number of headers: the number of findings and of
/// names that are read, the last of these names, and the last findings after a line.
fn loaded_includes(alloc: Global, count: u32, line: &str) -> Result<String, Fail> {
    let files = many_includes(alloc, count)?;
    let (shown, asked) = load_all(alloc, files, "PA.ipdl PB.ipdl", ".")?;
    let (_, last) = shown.as_str().split_once(line).ok_or("no such line")?;
    let names = asked.as_str().trim_end();
    let (lines, reads) = (shown.as_str().lines().count(), names.split(' ').count());
    let name = names.split(' ').last().unwrap_or("");
    Ok(format!(in alloc; "{lines} {reads} {name}\n{last}")?)
}

#[test]
fn limits(rt: HostRuntime) -> Result<(), Fail> {
    let alloc = rt.alloc();
    // A file of 1,048,576 bytes is read, and one of a byte more is too large.
    let shown = loaded_blanks(alloc, 1_048_576)?;
    assert_eq!(rt; shown.as_str(), "PA.ipdl PA.ipdl 1\nH.ipdlh H.ipdlh\n");
    assert_eq!(rt;
        loaded_blanks(alloc, 1_048_577)?.as_str(),
        "H.ipdlh:0:0 A5\n"
    );
    // With two words, 4,094 headers are reached. One more is left out wherever it is included.
    let shown = loaded_includes(alloc, 4094, "PA.ipdl:4093:9 A3\n")?;
    assert_eq!(rt; shown.as_str(), MOST_INCLUDES);
    let shown = loaded_includes(alloc, 4095, "PA.ipdl:4093:9 A3\n")?;
    assert_eq!(rt; shown.as_str(), MORE_INCLUDES);
    Ok(())
}

/// The expected text for includes of the largest number of headers that are reached.
const MOST_INCLUDES: &str = "4096 4096 H4093.ipdlh
PA.ipdl:4094:9 A3
PB.ipdl:1:9 A3
PB.ipdl:2:9 A3
";

/// The expected text for includes of one header more.
const MORE_INCLUDES: &str = "4097 4096 H4093.ipdlh
PA.ipdl:4094:9 A3
PA.ipdl:4095:9 A5
PB.ipdl:1:9 A5
PB.ipdl:2:9 A3
";

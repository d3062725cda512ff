//! Generated cases, and their summaries.

ghost use Rattle.std.specs.Prelude.{◌≤◌};

use super::calls::strings;
use file_log::RecordedFiles;
use generated_case::generate;
use ipdl_top::{Status, ipdl};
use memory_files::{MemoryFiles, MemorySink};
use std::alloc::{AllocError, Global};
use std::test::Fail;
use world_core::OneThread;

/// The greatest number of bytes in a transcript.
const ROOM: usize = 4_000_000;

/// Returns what a call with these words prints. Fails if its status is not `Done`, or if it writes to
/// `err`.
fn printed(alloc: Global, words: &str, files: MemoryFiles) -> Result<String, Fail> {
    let words = strings(alloc, words)?;
    let mut files = RecordedFiles::new(files);
    let mut out = MemorySink::new(alloc, ROOM, ROOM, Vec::new(alloc))?;
    let mut err = MemorySink::new(alloc, 1000, 1000, Vec::new(alloc))?;
    let mut driver = OneThread::new(Vec::new(alloc));
    let mut relay = OneThread::new(Vec::new(alloc));
    let status = ipdl(
        alloc,
        words.as_slice(),
        &mut files,
        &mut out,
        &mut err,
        &mut driver,
        &mut relay,
    );
    if status != Status::Done || !err.written().is_empty() {
        return Err(Fail::from("a call that is not done"));
    }
    Ok(String::from_str(alloc, str::from_utf8(out.written())?)?)
}

/// Returns a file with this name and this text.
fn file(alloc: Global, name: &str, text: &str) -> Result<(String, Vec<u8>), AllocError> {
    Ok((
        String::from_str(alloc, name)?,
        Vec::from_slice(alloc, text.as_bytes())?,
    ))
}

/// Returns the files and the script of a case.
fn files_of(alloc: Global, rounds: u32, actors: u32) -> Result<MemoryFiles, AllocError>
    requires some_rounds { 1 ≤ rounds }
    requires rounds { rounds ≤ 1000 }
    requires some_actors { 1 ≤ actors }
    requires actors { actors ≤ 100 }
{
    let case = generate(alloc, rounds, actors)?;
    let mut files = Vec::new(alloc);
    files.push(file(alloc, "PGen.ipdl", case.holder.as_str())?)?;
    files.push(file(alloc, "PLeaf.ipdl", case.leaf.as_str())?)?;
    files.push(file(alloc, "PGen.ids", case.script.as_str())?)?;
    Ok(MemoryFiles::new(files, Vec::new(alloc)))
}

/// Returns no files: each read of a file fails.
fn no_files(alloc: Global) -> Result<MemoryFiles, AllocError> {
    Ok(MemoryFiles::new(Vec::new(alloc), vec![in alloc; 1]?))
}

/// Returns how many lines of a text contain one part, but not another.
fn count(text: &str, part: &str, other: &str) -> usize {
    text.split('\n')
        .filter(|line| line.contains(part) && !line.contains(other))
        .count()
}

/// Returns the last line of a text.
fn last_line(text: &str) -> &str {
    text.trim_end().split('\n').last().unwrap_or("")
}

/// Returns the summary of a transcript, from its text only. Events begin with the word of their side,
/// and effects with two blanks.
fn summary_of(
    alloc: Global,
    transcript: &str,
    rounds: u32,
    actors: u32,
) -> Result<String, AllocError> {
    let parent = count(transcript, "parent ", "  ");
    let child = count(transcript, "child ", "  ");
    let taken = count(transcript, " take ", " take reply ");
    let dropped = count(transcript, " drop ", "  ");
    let replaced = count(transcript, "  replaced ", "parent");
    let settled = count(transcript, "  settle ", "parent");
    let built = count(transcript, "  built ", "parent");
    let fallen = count(transcript, "  fall ", "parent");
    let last = last_line(transcript);
    format!(in alloc;
        "gen {rounds} actors {actors}\nparent steps {parent}\nchild steps {child}\ntaken {taken}\ndropped {dropped}\nreplaced {replaced}\nsettled {settled}\nbuilt {built}\nfallen {fallen}\n{last}\n"
    )
}

/// Returns what `gen` prints of a case. Fails if that is not the summary of what `run` prints of its
/// files.
fn summary(alloc: Global, rounds: u32, actors: u32) -> Result<String, Fail>
    requires some_rounds { 1 ≤ rounds }
    requires rounds { rounds ≤ 1000 }
    requires some_actors { 1 ≤ actors }
    requires actors { actors ≤ 100 }
{
    let files = files_of(alloc, rounds, actors)?;
    let transcript = printed(
        alloc,
        "run --schedule= --limit 20000 PGen.ids PGen.ipdl",
        files,
    )?;
    let words = format!(in alloc; "gen --actors {actors} {rounds}")?;
    let printed = printed(alloc, words.as_str(), no_files(alloc)?)?;
    let counted = summary_of(alloc, transcript.as_str(), rounds, actors)?;
    if printed.as_str() != counted.as_str() {
        return Err(Fail::from("a summary that is not that of the transcript"));
    }
    Ok(printed)
}

/// The worked summary.
const ONE: &str = "gen 1 actors 1
parent steps 22
child steps 12
taken 6
dropped 0
replaced 1
settled 1
built 2
fallen 4
finished
";

#[test]
fn summaries(rt: HostRuntime) -> Result<(), Fail> {
    let alloc = rt.alloc();
    assert_eq!(rt; summary(alloc, 1, 1)?.as_str(), ONE);
    assert_eq!(rt; last_line(summary(alloc, 7, 3)?.as_str()), "finished");
    assert_eq!(rt; last_line(summary(alloc, 3, 7)?.as_str()), "finished");
    assert_eq!(rt; last_line(summary(alloc, 40, 100)?.as_str()), "finished");
    Ok(())
}

/// Returns what `gen` prints of the largest case.
fn largest_summary(alloc: Global) -> Result<String, Fail> {
    printed(alloc, "gen --actors 100 1000", no_files(alloc)?)
}

#[test]
fn largest(rt: HostRuntime) -> Result<(), Fail> {
    let alloc = rt.alloc();
    let first = largest_summary(alloc)?;
    assert_eq!(rt; last_line(first.as_str()), "finished");
    assert_eq!(rt; largest_summary(alloc)?.as_str(), first.as_str());
    Ok(())
}

/// The table of the files of every case.
const TABLE: &str = "protocol 0 PGen sync inside_sync
manages PLeaf
message 0 parent async not plain constructor PLeaf()
message 2 parent async not compress normal Up(int32_t n)
protocol 1 PLeaf sync inside_sync
manager PGen
message 65536 parent sync inside_sync plain normal Ask(int32_t n) returns (int32_t r)
message 65538 parent async not plain normal Get(int32_t n) returns (int32_t r)
message 65540 parent async not plain delete __delete__()
message 65542 child sync inside_sync plain normal Back(int32_t n) returns (int32_t r)
";

/// The files of a case break no rule, whichever of them is named, and have this table.
#[test]
fn files_break_no_rule(rt: HostRuntime) -> Result<(), Fail> {
    let alloc = rt.alloc();
    assert_eq!(rt;
        printed(alloc, "PGen.ipdl", files_of(alloc, 1, 1)?)?.as_str(),
        TABLE
    );
    assert_eq!(rt;
        printed(alloc, "PLeaf.ipdl", files_of(alloc, 7, 3)?)?.as_str(),
        TABLE
    );
    assert_eq!(rt;
        printed(alloc, "PGen.ipdl", files_of(alloc, 1000, 100)?)?.as_str(),
        TABLE
    );
    Ok(())
}

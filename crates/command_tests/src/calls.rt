//! Whole calls, and what each leaves on files and sinks in memory.

use super::audit_rows::AUDITS;
use super::call_rows::{HELLO, LISTED, LISTS, NAMES, REACHES, REPORTS, WORDS};
use super::chart_rows::CHARTS;
use super::explore_rows::EXPLORATIONS;
use super::feed_rows::{FEEDS, IDLE};
use super::frame_rows::{FLAG, FRAMES};
use super::relay_rows::RELAYS;
use super::run_rows::{RACE, RUNS};
use super::wait_rows::WAITS;
use file_log::RecordedFiles;
use ipdl_base::{Failure, FileBytes, Files};
use ipdl_top::{Status, ipdl};
use memory_files::{MemoryFiles, MemorySink};
use std::alloc::{AllocError, Global};
use std::test::Fail;
use world_core::OneThread;

const USAGE: &str = "usage: ipdl [-s LIST] [--path DIRS] FILES
       ipdl run [-s LIST] [--path DIRS] [--schedule WORD] [--limit N] [--die SIDE:K] SCRIPT FILE
       ipdl frames [-s LIST] [--path DIRS] [--to 2] FILE FRAMES
       ipdl gen [--actors A] N
       ipdl feed [-s LIST] [--path DIRS] [--limit N] --side SIDE SCRIPT FILE FRAMES
       ipdl relay [-s LIST] [--path DIRS] [--die SIDE:K] [--limit N] SCRIPT FILE
       ipdl audit [-s LIST] [--path DIRS] [--limit N] SCRIPT FILE TRANSCRIPT
       ipdl waits [-s LIST] [--path DIRS] FILE
       ipdl chart [-s LIST] [--path DIRS] [--schedule WORD] [--limit N] [--die SIDE:K] SCRIPT FILE
       ipdl explore [-s LIST] [--path DIRS] [--limit N] [--ways M] SCRIPT FILE
       ipdl help [COMMAND]
       ipdl version
";

/// A file: its name and its bytes.
type Source = (&'static str, &'static [u8]);

/// Files.
type Sources = &'static [Source];

/// A call and what it leaves.
#[derive(Clone, Copy)]
struct Row {
    words: &'static str,
    files: Sources,
    status: Status,
    out: &'static [u8],
    err: &'static str,
}

/// What a call leaves, and how many files it read.
#[derive(Drop)]
pub struct Left {
    status: Status,
    out: MemorySink,
    err: MemorySink,
    reads: u64,
}

impl Left {
    /// Returns whether the call did its work, wrote a text that begins so to `out` and nothing to `err`, and read nothing.
    pub fn says(&self, begins: &[u8]) -> bool {
        self.status == Status::Done
            && self.out.written().starts_with(begins)
            && self.err.written().is_empty()
            && self.reads == 0
    }
}

/// Files in memory that count their reads.
#[derive(Drop)]
struct CountedFiles {
    files: MemoryFiles,
    reads: u64,
}

impl Files for CountedFiles {
    ghost use Rattle.std.specs.Prelude.{Some};
    ghost use Rattle.memory_files.specs.Memory as memory;

    ghost known = { λ f. Some (memory.file_named f.files.files) };

    ghost faults = { λ f. f.files.faults };

    fn read(&mut self, alloc: Global, name: &str, limit: usize) -> Result<FileBytes, Failure> {
        self.reads = self.reads.saturating_add(1);
        self.files.read(alloc, name, limit)
    }
}

/// Returns the words of a text as strings.
pub fn strings(alloc: Global, words: &str) -> Result<Vec<String>, AllocError> {
    let mut strings = Vec::new(alloc);
    for word in words.split(' ') {
        if !word.is_empty() {
            strings.push(String::from_str(alloc, word)?)?;
        }
    }
    Ok(strings)
}

/// Returns a file with this name and these bytes.
fn file(alloc: Global, name: &str, bytes: Vec<u8>) -> Result<(String, Vec<u8>), AllocError> {
    Ok((String::from_str(alloc, name)?, bytes))
}

/// Returns these files. The read with this number, counted from 1, fails.
fn files(alloc: Global, sources: Sources, failing: u64) -> Result<MemoryFiles, AllocError> {
    let mut files = Vec::new(alloc);
    for (name, bytes) in sources {
        files.push(file(alloc, name, Vec::from_slice(alloc, bytes)?)?)?;
    }
    Ok(MemoryFiles::new(files, vec![in alloc; failing]?))
}

/// Returns a sink that takes this number of bytes at once. The write with this number, counted from 1,
/// fails.
pub fn sink(alloc: Global, piece: usize, failing: u64) -> Result<MemorySink, AllocError> {
    MemorySink::new(alloc, piece.max(1), 8000, vec![in alloc; failing]?)
}

/// Returns what a call with these words leaves on these sinks.
pub fn call_on(
    alloc: Global,
    words: &str,
    files: MemoryFiles,
    out: MemorySink,
    err: MemorySink,
) -> Result<Left, AllocError> {
    let words = strings(alloc, words)?;
    let mut files = RecordedFiles::new(CountedFiles { files, reads: 0 });
    let mut out = out;
    let mut err = err;
    let mut driver = OneThread::new(Vec::new(alloc));
    let mut relay = OneThread::new(Vec::new(alloc));
    let status = ipdl(
        alloc,
        words.as_slice(),
        &mut files,
        &mut out,
        &mut err,
        &mut driver,
        &mut relay,
    );
    let reads = files.files().reads;
    Ok(Left {
        status,
        out,
        err,
        reads,
    })
}

/// Returns what a call with these words leaves, where `out` takes `piece` bytes at once, and the write
/// to it with the number `failing`, counted from 1, fails.
fn call(
    alloc: Global,
    words: &str,
    files: MemoryFiles,
    piece: usize,
    failing: u64,
) -> Result<Left, AllocError> {
    let out = sink(alloc, piece, failing)?;
    let err = sink(alloc, 1000, 0)?;
    call_on(alloc, words, files, out, err)
}

/// Notes what a call leaves if it is not this.
pub fn note(
    words: &str,
    left: &Left,
    code: u8,
    out: &[u8],
    err: &[u8],
    wrong: &mut String,
) -> Result<(), AllocError> {
    if left.status.code() == code && left.out.written() == out && left.err.written() == err {
        return Ok(());
    }
    let out = str::from_utf8(left.out.written()).unwrap_or("no text");
    let err = str::from_utf8(left.err.written()).unwrap_or("no text");
    writeln!(wrong, "{words}: {} {out}{err}", left.status.code())
}

/// Returns the byte that two hexadecimal digits spell.
fn byte_of(digits: &[u8]) -> Result<u8, Fail> {
    Ok(u8::from_str_radix(str::from_utf8(digits)?, 16)?)
}

/// Returns the bytes of a text, or of digits after `hex `.
pub fn bytes_of(alloc: Global, text: &str) -> Result<Vec<u8>, Fail> {
    let Some(digits) = text.strip_prefix("hex ") else {
        return Ok(Vec::from_slice(alloc, text.as_bytes())?);
    };
    let mut bytes = Vec::new(alloc);
    for pair in digits.trim_end().as_bytes().chunks(2) {
        bytes.push(byte_of(pair)?)?;
    }
    Ok(bytes)
}

/// Appends the files in the pieces between `@ `, each with its name and its bytes.
fn push_files(alloc: Global, pieces: &str, files: &mut Vec<(String, Vec<u8>)>) -> Result<(), Fail> {
    for piece in pieces.split("@ ") {
        if let Some((name, text)) = piece.split_once("\n") {
            files.push(file(alloc, name, bytes_of(alloc, text)?)?)?;
        }
    }
    Ok(())
}

/// Returns the files of pieces, followed by the shared ones.
pub fn files_of(alloc: Global, pieces: &str, shared: &str) -> Result<MemoryFiles, Fail> {
    let mut files = Vec::new(alloc);
    push_files(alloc, pieces, &mut files)?;
    push_files(alloc, shared, &mut files)?;
    Ok(MemoryFiles::new(files, Vec::new(alloc)))
}

/// The parts of a row of calls.
#[derive(Clone, Copy)]
pub struct CallRow<'a> {
    /// The words of the call.
    pub words: &'a str,
    /// The code of its status, as text.
    pub code: &'a str,
    /// What it writes to `out`.
    pub out: &'a str,
    /// What it writes to `err`.
    pub err: &'a str,
    /// Its files.
    pub pieces: &'a str,
}

/// Returns the parts of a row of calls.
pub fn call_row(row: &str) -> Result<CallRow<'_>, Fail> {
    let (head, rest) = row
        .split_once("\n@ ")
        .ok_or("a row without what is written")?;
    let (_, head) = head.split_once("\n").ok_or("a row without words")?;
    let (words, code) = head.split_once("\n").ok_or("a row without its code")?;
    let (out, rest) = rest.split_once("@ ").ok_or("a row without its report")?;
    let (err, pieces) = rest.split_once("@ ").unwrap_or((rest, ""));
    let err = if err == "usage\n" { USAGE } else { err };
    Ok(CallRow {
        words,
        code,
        out,
        err,
        pieces,
    })
}

/// Notes a row of calls if its call leaves something else.
fn check(alloc: Global, row: &str, shared: &str, wrong: &mut String) -> Result<(), Fail> {
    let row = call_row(row)?;
    let files = files_of(alloc, row.pieces, shared)?;
    let left = call(alloc, row.words, files, 1000, 0)?;
    let out = bytes_of(alloc, row.out)?;
    let code = row.code.parse::<u8>()?;
    Ok(note(
        row.words,
        &left,
        code,
        out.as_slice(),
        row.err.as_bytes(),
        wrong,
    )?)
}

/// Returns which calls of a table leave something else. Each call also has the shared files.
fn wrong_calls(alloc: Global, table: &str, shared: &str) -> Result<String, Fail> {
    let mut wrong = String::new(alloc);
    for row in table.split("====\n") {
        check(alloc, row, shared, &mut wrong)?;
    }
    Ok(wrong)
}

#[test]
fn calls(rt: HostRuntime) -> Result<(), Fail> {
    let alloc = rt.alloc();
    assert_eq!(rt; wrong_calls(alloc, WORDS, HELLO)?.as_str(), "");
    assert_eq!(rt; wrong_calls(alloc, LISTS, LISTED)?.as_str(), "");
    assert_eq!(rt; wrong_calls(alloc, REACHES, "")?.as_str(), "");
    assert_eq!(rt; wrong_calls(alloc, REPORTS, "")?.as_str(), "");
    assert_eq!(rt; wrong_calls(alloc, NAMES, "")?.as_str(), "");
    assert_eq!(rt; wrong_calls(alloc, FRAMES, FLAG)?.as_str(), "");
    assert_eq!(rt; wrong_calls(alloc, WAITS, "")?.as_str(), "");
    assert_eq!(rt; wrong_calls(alloc, RUNS, RACE)?.as_str(), "");
    assert_eq!(rt; wrong_calls(alloc, FEEDS, IDLE)?.as_str(), "");
    assert_eq!(rt; wrong_calls(alloc, AUDITS, RACE)?.as_str(), "");
    assert_eq!(rt; wrong_calls(alloc, RELAYS, RACE)?.as_str(), "");
    assert_eq!(rt; wrong_calls(alloc, CHARTS, RACE)?.as_str(), "");
    assert_eq!(rt; wrong_calls(alloc, EXPLORATIONS, RACE)?.as_str(), "");
    Ok(())
}

/// A program of two files, and a list with which they break no rule.
const TWO: Sources = &[
    (
        "PA.ipdl",
        b"include protocol PB;\nsync protocol PA {\nparent:\n  sync Ask();\n};\n",
    ),
    ("PB.ipdl", b"protocol PB {\nchild:\n  async Tell();\n};\n"),
    ("list.ini", b"[PA::Ask]\ndescription = why\n"),
];

const TWO_TABLE: &[u8] = b"protocol 0 PA sync not
message 0 parent sync not plain normal Ask()
protocol 1 PB async not
message 65536 child async not plain normal Tell()
";

/// Does the same as `note`, for a row.
fn note_row(row: &Row, left: &Left, wrong: &mut String) -> Result<(), AllocError> {
    note(
        row.words,
        left,
        row.status.code(),
        row.out,
        row.err.as_bytes(),
        wrong,
    )
}

/// Words for the program of two files and its list.
const TWO_WORDS: &str = "-s list.ini PA.ipdl";

/// A call with these words and files.
const ON_TWO: Row = Row {
    words: TWO_WORDS,
    files: TWO,
    status: Status::Done,
    out: TWO_TABLE,
    err: "",
};

/// The same call, if a read fails.
const TWO_UNREAD: Row = Row {
    words: TWO_WORDS,
    files: TWO,
    status: Status::ReadFault,
    out: b"",
    err: "",
};

/// The same call, if the second write fails.
const TWO_UNWRITTEN: Row = Row {
    words: TWO_WORDS,
    files: TWO,
    status: Status::WriteFault,
    out: b"proto",
    err: "",
};

/// A program that breaks a rule, a list and frames.
const BROKEN: Sources = &[
    (
        "PF.ipdl",
        b"protocol PF {\nparent:\n  async Flag(Bool b);\n};\n",
    ),
    ("list.ini", b""),
    ("f.bin", b""),
];

/// Words for these files.
const BROKEN_WORDS: &str = "frames -s list.ini PF.ipdl f.bin";

/// A call with these words and files.
const ON_BROKEN: Row = Row {
    words: BROKEN_WORDS,
    files: BROKEN,
    status: Status::Broken,
    out: b"",
    err: "PF.ipdl:3:14: B1 unknown type\n",
};

/// The same call, if a read fails.
const BROKEN_UNREAD: Row = Row {
    words: BROKEN_WORDS,
    files: BROKEN,
    status: Status::ReadFault,
    out: b"",
    err: "",
};

/// Calls with the number of the read that fails; 0 means that no read fails. A failed read of the
/// frames counts even if the program breaks a rule.
const READS: &[(u64, Row)] = &[
    (0, ON_TWO),
    (1, TWO_UNREAD),
    (2, TWO_UNREAD),
    (3, TWO_UNREAD),
    (1, BROKEN_UNREAD),
    (2, BROKEN_UNREAD),
    (3, BROKEN_UNREAD),
    (4, ON_BROKEN),
];

/// Returns which of these leave something else.
fn wrong_reads(alloc: Global) -> Result<String, AllocError> {
    let mut wrong = String::new(alloc);
    for (failing, row) in READS {
        let files = files(alloc, row.files, *failing)?;
        let left = call(alloc, row.words, files, 1000, 0)?;
        note_row(row, &left, &mut wrong)?;
    }
    Ok(wrong)
}

/// Calls with the number of the write that fails, where `out` takes five bytes at once.
const WRITES: &[(u64, Row)] = &[(0, ON_TWO), (2, TWO_UNWRITTEN)];

/// Returns which of these leave something else.
fn wrong_writes(alloc: Global) -> Result<String, AllocError> {
    let mut wrong = String::new(alloc);
    for (failing, row) in WRITES {
        let left = call(alloc, row.words, files(alloc, row.files, 0)?, 5, *failing)?;
        note_row(row, &left, &mut wrong)?;
    }
    Ok(wrong)
}

/// Returns how much the run of two calls at the same time prints if the write with this number fails
/// and `out` takes fifty bytes at once: a prefix of its text, with status 4. Returns `None` if the call
/// leaves anything else.
fn front_written(alloc: Global, failing: u64) -> Result<Option<usize>, Fail> {
    let files = files_of(alloc, RACE, "")?;
    let left = call(
        alloc,
        "run --schedule PCPC race.ids PW.ipdl",
        files,
        50,
        failing,
    )?;
    let written = left.out.written();
    let (_, whole) = RUNS.split_once("@ ").ok_or("a table without a text")?;
    let is_front = whole.as_bytes().starts_with(written);
    if left.status != Status::WriteFault || !left.err.written().is_empty() || !is_front {
        return Ok(None);
    }
    Ok(Some(written.len()))
}

/// Returns how many bytes were written before each of the eight writes of that run, if that write
/// fails.
fn prefixes(alloc: Global) -> Result<String, Fail> {
    let mut shown = String::new(alloc);
    for failing in 1..9 {
        match front_written(alloc, failing)? {
            Some(count) => write!(shown, "{count} ")?,
            None => write!(shown, "none ")?,
        }
    }
    Ok(shown)
}

/// Returns the results of a call with these words and files if one of its first `reads` reads fails,
/// for each of them: its status, whether it wrote anything, and how many files it read.
fn unread(alloc: Global, words: &str, shared: &str, reads: u64) -> Result<String, Fail> {
    let mut shown = String::new(alloc);
    for failing in 1..=reads {
        let mut all = Vec::new(alloc);
        push_files(alloc, shared, &mut all)?;
        let files = MemoryFiles::new(all, vec![in alloc; failing]?);
        let left = call(alloc, words, files, 1000, 0)?;
        let wrote = !left.out.written().is_empty() || !left.err.written().is_empty();
        write!(shown, "{} {wrote} {}, ", left.status.code(), left.reads)?;
    }
    Ok(shown)
}

/// Returns these results for the run of two calls at the same time.
fn unread_runs(alloc: Global) -> Result<String, Fail> {
    unread(alloc, "run --schedule PCPC race.ids PW.ipdl", RACE, 3)
}

/// Returns these results for a feed: reads of the program, of the script and of the frames. A failed
/// read of the frames counts even if the script is bad.
fn unread_feeds(alloc: Global) -> Result<String, Fail> {
    let words = "feed --side parent PF.ipdl PF.ipdl idle.ids";
    unread(alloc, words, IDLE, 4)
}

/// Returns these results for an audit: reads of the program, of the script and of the text. A failed
/// read of the text counts even if the script is bad.
fn unread_audits(alloc: Global) -> Result<String, Fail> {
    unread(alloc, "audit PF.ipdl PF.ipdl idle.ids", IDLE, 4)
}

#[test]
fn failing_runs(rt: HostRuntime) -> Result<(), Fail> {
    let alloc = rt.alloc();
    assert_eq!(rt; prefixes(alloc)?.as_str(), "0 50 100 150 200 250 300 350 ");
    assert_eq!(rt;
        unread_runs(alloc)?.as_str(),
        "3 false 1, 3 false 2, 0 true 2, "
    );
    assert_eq!(rt;
        unread_feeds(alloc)?.as_str(),
        "3 false 1, 3 false 2, 3 false 3, 7 true 3, "
    );
    assert_eq!(rt;
        unread_audits(alloc)?.as_str(),
        "3 false 1, 3 false 2, 3 false 3, 7 true 3, "
    );
    Ok(())
}

/// A program without a message, and a script that does nothing.
const EMPTY: Sources = &[("PF.ipdl", b"protocol PF {\n};\n"), ("idle.ids", b"")];

/// A file of frames that is too large.
const LARGER_FRAMES: Row = Row {
    words: "frames PF.ipdl f.bin",
    files: EMPTY,
    status: Status::BadFrames,
    out: b"",
    err: "f.bin:0: larger\n",
};

/// A sync list that is too large.
const LARGER_LIST: Row = Row {
    words: "-s list.ini PF.ipdl",
    files: EMPTY,
    status: Status::Broken,
    out: b"",
    err: "list.ini:0:0: A5 too large\n",
};

/// A text to audit that is too large.
const LARGER_TEXT: Row = Row {
    words: "audit idle.ids PF.ipdl t.txt",
    files: EMPTY,
    status: Status::BadTranscript,
    out: b"",
    err: "t.txt:0: larger\n",
};

/// The names of files with one byte more than is read, the number of their bytes, and calls that read
/// them.
const LARGER: &[(&str, usize, Row)] = &[
    ("f.bin", 1_048_577, LARGER_FRAMES),
    ("list.ini", 1_048_577, LARGER_LIST),
    ("t.txt", 16_777_217, LARGER_TEXT),
];

/// Returns the files of the program, and a file with this name and size.
fn with_larger(alloc: Global, name: &str, size: usize) -> Result<MemoryFiles, AllocError> {
    let mut files = Vec::new(alloc);
    for (name, bytes) in EMPTY {
        files.push(file(alloc, name, Vec::from_slice(alloc, bytes)?)?)?;
    }
    files.push(file(alloc, name, vec![in alloc; 0u8; size]?)?)?;
    Ok(MemoryFiles::new(files, Vec::new(alloc)))
}

/// Returns which of these leave something else.
fn wrong_larger(alloc: Global) -> Result<String, AllocError> {
    let mut wrong = String::new(alloc);
    for (name, size, row) in LARGER {
        let left = call(alloc, row.words, with_larger(alloc, name, *size)?, 1000, 0)?;
        note_row(row, &left, &mut wrong)?;
    }
    Ok(wrong)
}

#[test]
fn outsides(rt: HostRuntime) -> Result<(), Fail> {
    let alloc = rt.alloc();
    assert_eq!(rt; wrong_reads(alloc)?.as_str(), "");
    assert_eq!(rt; wrong_writes(alloc)?.as_str(), "");
    assert_eq!(rt; wrong_larger(alloc)?.as_str(), "");
    Ok(())
}

/// The codes of statuses.
const CODES: &[(Status, u8)] = &[
    (Status::Done, 0),
    (Status::Broken, 1),
    (Status::Usage, 2),
    (Status::ReadFault, 3),
    (Status::WriteFault, 4),
    (Status::Spent, 5),
    (Status::NoMemory, 6),
    (Status::BadScript, 7),
    (Status::BadFrames, 8),
    (Status::BadTranscript, 9),
];

#[test]
fn codes(rt: HostRuntime) {
    for (status, code) in CODES {
        assert_eq!(rt; status.code(), *code);
    }
}

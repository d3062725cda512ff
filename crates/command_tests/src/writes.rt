//! Calls on sinks that take few bytes at once. Each write fails in turn.

use super::call_rows::{HELLO, REPORTS, WORDS};
use super::calls::{CallRow, Left, bytes_of, call_on, call_row, files_of, note, sink};
use super::frame_rows::{FLAG, FRAMES};
use memory_files::MemoryFiles;
use std::alloc::{AllocError, Global};
use std::test::Fail;

/// A call with the files that it shares with others, and how many bytes each write of it takes.
#[derive(Clone, Copy)]
struct Writing<'a> {
    row: CallRow<'a>,
    shared: &'a str,
    piece: usize,
}

/// The numbers of the writes that fail, counted from 1; 0 means that no write fails.
#[derive(Clone, Copy)]
struct Failing {
    out: u64,
    err: u64,
}

/// What a call writes, and its code.
#[derive(Clone, Copy)]
struct Written<'a> {
    code: u8,
    out: &'a [u8],
    err: &'a [u8],
}

/// Returns how many writes a text needs.
fn writes_of(text: &[u8], piece: usize) -> u64 {
    let mut writes = 0u64;
    for _ in text.chunks(piece.max(1)) {
        writes = writes.wrapping_add(1);
    }
    writes
}

/// Returns what was written of a text before the write with this number.
fn front(text: &[u8], piece: usize, failing: u64) -> &[u8] {
    let before = usize::try_from(failing).unwrap_or(0).saturating_sub(1);
    text.get(..before.saturating_mul(piece)).unwrap_or(text)
}

/// Returns what the call leaves on these files.
fn left_by(
    alloc: Global,
    writing: Writing,
    failing: Failing,
    files: MemoryFiles,
) -> Result<Left, AllocError> {
    let out = sink(alloc, writing.piece, failing.out)?;
    let err = sink(alloc, writing.piece, failing.err)?;
    call_on(alloc, writing.row.words, files, out, err)
}

/// Notes what the call leaves if it is not this.
fn check(
    alloc: Global,
    writing: Writing,
    failing: Failing,
    wanted: Written,
    wrong: &mut String,
) -> Result<(), Fail> {
    let Written { code, out, err } = wanted;
    let files = files_of(alloc, writing.row.pieces, writing.shared)?;
    let left = left_by(alloc, writing, failing, files)?;
    Ok(note(writing.row.words, &left, code, out, err, wrong)?)
}

/// Does the same if no write fails; if each write to `out` fails in turn, with nothing written to
/// `err`; and if each write to `err` fails in turn, with all of `out` written.
fn check_writes(
    alloc: Global,
    writing: Writing,
    whole: Written,
    wrong: &mut String,
) -> Result<(), Fail> {
    let Written { out, err, .. } = whole;
    check(alloc, writing, Failing { out: 0, err: 0 }, whole, wrong)?;
    for failing in 1..=writes_of(out, writing.piece) {
        let out = front(out, writing.piece, failing);
        let wanted = Written {
            code: 4,
            out,
            err: b"",
        };
        check(
            alloc,
            writing,
            Failing {
                out: failing,
                err: 0,
            },
            wanted,
            wrong,
        )?;
    }
    for failing in 1..=writes_of(err, writing.piece) {
        let err = front(err, writing.piece, failing);
        let wanted = Written { code: 4, out, err };
        check(
            alloc,
            writing,
            Failing {
                out: 0,
                err: failing,
            },
            wanted,
            wrong,
        )?;
    }
    Ok(())
}

/// Returns the row of a table that begins with `start`.
fn row_of<'a>(table: &'a str, start: &str) -> Result<CallRow<'a>, Fail> {
    for row in table.split("====\n") {
        if row.starts_with(start) {
            return call_row(row);
        }
    }
    Err("no such row".into())
}

/// Notes a row that does not leave what it states, with pieces of one byte and of three.
fn check_row(alloc: Global, row: CallRow, shared: &str, wrong: &mut String) -> Result<(), Fail> {
    let out = bytes_of(alloc, row.out)?;
    let whole = Written {
        code: row.code.parse::<u8>()?,
        out: out.as_slice(),
        err: row.err.as_bytes(),
    };
    for piece in [1, 3] {
        check_writes(alloc, Writing { row, shared, piece }, whole, wrong)?;
    }
    Ok(())
}

/// Returns what is left that is not expected: for a report, for words that are not a command, and for
/// frames followed by a fault.
fn wrong_writes(alloc: Global) -> Result<String, Fail> {
    let mut wrong = String::new(alloc);
    let report = row_of(REPORTS, "repeated-and-unknown\n")?;
    check_row(alloc, report, "", &mut wrong)?;
    let usage = row_of(WORDS, "\n-s\n")?;
    check_row(alloc, usage, HELLO, &mut wrong)?;
    let frames = row_of(FRAMES, "frames-short\n")?;
    check_row(alloc, frames, FLAG, &mut wrong)?;
    Ok(wrong)
}

#[test]
fn writes(rt: HostRuntime) -> Result<(), Fail> {
    assert_eq!(rt; wrong_writes(rt.alloc())?.as_str(), "");
    Ok(())
}

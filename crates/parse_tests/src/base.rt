//! Tests of files, sinks, builtin types and names.

use super::checks::{check, cut};
use ipdl_base::{
    Builtin, Failure, FileBytes, Files, Level, Name, Side, Sink, WriteAnswer, defers_request,
};
use memory_files::{MemoryFiles, MemorySink};
use std::alloc::{AllocError, Global};
use std::collections::HashSet;
use std::test::Fail;

/// Returns a file's name and its bytes.
fn entry(alloc: Global, name: &str, text: &str) -> Result<(String, Vec<u8>), AllocError> {
    let name = String::from_str(alloc, name)?;
    Ok((name, Vec::from_slice(alloc, text.as_bytes())?))
}

/// Returns files, two of them with one name. The second read fails.
fn files(alloc: Global) -> Result<MemoryFiles, AllocError> {
    let mut entries = Vec::new(alloc);
    for (name, text) in [("a", "first"), ("b", ""), ("a", "second")] {
        entries.push(entry(alloc, name, text)?)?;
    }
    Ok(MemoryFiles::new(entries, vec![in alloc; 2]?))
}

/// Returns the result of a read as text. Bytes follow `bytes `.
fn read_text(alloc: Global, answer: Result<FileBytes, Failure>) -> Result<String, Fail> {
    match answer {
        Ok(FileBytes::Bytes(bytes)) => {
            let text = str::from_utf8(bytes.as_slice())?;
            Ok(format!(in alloc; "bytes {text}")?)
        }
        Ok(FileBytes::Absent) => Ok(String::from_str(alloc, "absent")?),
        Ok(FileBytes::Larger) => Ok(String::from_str(alloc, "larger")?),
        Err(Failure::ReadFault) => Ok(String::from_str(alloc, "failed")?),
        Err(Failure::NoMemory) => Err("no memory".into()),
    }
}

/// Reads several names, one after another.
#[test]
fn reads(rt: HostRuntime) -> Result<(), Fail> {
    let alloc = rt.alloc();
    let mut files = files(alloc)?;
    for (name, limit, wanted) in [
        ("a", 5, "bytes first"),
        ("a", 5, "failed"),
        ("a", 4, "larger"),
        ("c", 5, "absent"),
        ("b", 0, "bytes "),
    ] {
        let found = read_text(alloc, files.read(alloc, name, limit))?;
        check(&rt, wanted, found.as_str(), wanted);
    }
    Ok(())
}

/// Pieces, each with the expected result of writing it.
const WRITES: &str = "abcdefgh: took 5
fgh: failed
fgh: took 3
: took 0
ijklmnop: took 4
mnop: failed
: took 0";

fn write_text(alloc: Global, answer: WriteAnswer) -> Result<String, Fail> {
    match answer {
        WriteAnswer::Took(count) => Ok(format!(in alloc; "took {count}")?),
        WriteAnswer::Failed => Ok(String::from_str(alloc, "failed")?),
    }
}

/// Writes pieces one after another to a sink that takes 5 bytes at a time and has room for 12. The
/// second write fails.
#[test]
fn writes(rt: HostRuntime) -> Result<(), Fail> {
    let alloc = rt.alloc();
    let mut sink = MemorySink::new(alloc, 5, 12, [2].to_vec(alloc)?)?;
    for row in WRITES.split("\n") {
        let (piece, wanted) = cut(row, ": ");
        let found = write_text(alloc, sink.write(piece.as_bytes()))?;
        check(&rt, row, found.as_str(), wanted);
    }
    let written = str::from_utf8(sink.written())?;
    check(&rt, "written", written, "abcdefghijkl");
    Ok(())
}

/// Returns whether this is the builtin type of the name, and whether it is carried as it must be.
fn is_builtin(name: &str, builtin: Builtin) -> bool {
    Builtin::from_name(name.as_bytes()) == Some(builtin)
        && builtin.name() == name.as_bytes()
        && builtin.is_carried() == (name != "Shmem" && name != "FileDescriptor")
}

#[test]
fn builtins(rt: HostRuntime) {
    let rows = [
        ("bool", Builtin::Bool),
        ("char", Builtin::Char),
        ("int8_t", Builtin::Int8),
        ("uint8_t", Builtin::Uint8),
        ("short", Builtin::Short),
        ("int16_t", Builtin::Int16),
        ("uint16_t", Builtin::Uint16),
        ("int", Builtin::Int),
        ("int32_t", Builtin::Int32),
        ("uint32_t", Builtin::Uint32),
        ("nsresult", Builtin::NsResult),
        ("long", Builtin::Long),
        ("int64_t", Builtin::Int64),
        ("intptr_t", Builtin::IntPtr),
        ("uint64_t", Builtin::Uint64),
        ("uintptr_t", Builtin::UintPtr),
        ("float", Builtin::Float),
        ("double", Builtin::Double),
        ("nsString", Builtin::NsString),
        ("nsCString", Builtin::NsCString),
        ("ByteBuf", Builtin::ByteBuf),
        ("Shmem", Builtin::Shmem),
        ("FileDescriptor", Builtin::FileDescriptor),
    ];
    for (name, builtin) in rows {
        assert!(rt; is_builtin(name, builtin), "{name}");
    }
    assert!(rt; Builtin::from_name(b"string").is_none());
}

/// Tests an end that waits for a reply of level `InsideSync` in transaction 7.
#[test]
fn deferral(rt: HostRuntime) {
    let rows = [
        (Side::Child, false, Level::InsideSync, 0, true),
        (Side::Parent, false, Level::InsideCpow, 0, false),
        (Side::Child, true, Level::Not, 7, true),
        (Side::Child, true, Level::InsideSync, -3, false),
        (Side::Parent, true, Level::InsideSync, -3, true),
        (Side::Parent, true, Level::InsideSync, 7, false),
        (Side::Parent, true, Level::InsideCpow, -3, false),
    ];
    for (side, sync, level, transaction, want) in rows {
        let awaited = Level::InsideSync;
        let defers = defers_request(side, awaited, Some(7), sync, level, transaction);
        assert!(rt; defers == want, "{sync} {transaction} {want}");
    }
}

/// Returns the text of a name and its copy, whether they are equal, and the length of the first.
fn copy_text(alloc: Global, name: &Name, copy: &Name) -> Result<String, Fail> {
    let text = str::from_utf8(name.as_slice())?;
    let is_same = name == copy;
    let is_empty = name.is_empty();
    Ok(format!(in alloc; "{text} {is_same} {} {is_empty}", name.len())?)
}

/// Returns whether a name is new to a set, and whether its copy is then found there.
fn set_text(alloc: Global, name: Name, copy: &Name) -> Result<String, Fail> {
    let mut seen = HashSet::new(alloc);
    let is_new = seen.insert(name)?;
    let is_seen = seen.contains(copy);
    Ok(format!(in alloc; "{is_new} {is_seen}")?)
}

/// Returns the text of a name and its copy, what a set gives for them, and at last the text of the
/// copy.
fn name_text(alloc: Global) -> Result<String, Fail> {
    let name = Name::from_slice(alloc, b"word")?;
    let copy = name.copy(alloc)?;
    let copied = copy_text(alloc, &name, &copy)?;
    let seen = set_text(alloc, name, &copy)?;
    let text = str::from_utf8(copy.as_slice())?;
    Ok(format!(in alloc; "{copied} {seen} {text}")?)
}

#[test]
fn names(rt: HostRuntime) -> Result<(), Fail> {
    let found = name_text(rt.alloc())?;
    let wanted = "word true 4 false true true word";
    check(&rt, "a name", found.as_str(), wanted);
    Ok(())
}

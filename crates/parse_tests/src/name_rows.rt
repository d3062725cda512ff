//! Tests of names of several lengths.

use super::checks::check;
use ipdl_base::Name;
use std::alloc::{AllocError, Global};
use std::collections::HashSet;
use std::test::Fail;

/// Returns this number of bytes: the letters, repeated.
fn letters(alloc: Global, count: usize) -> Result<Vec<u8>, AllocError> {
    let alphabet = b"abcdefghijklmnopqrstuvwxyz";
    let mut bytes = Vec::with_capacity(alloc, count)?;
    for letter in alphabet.iter().cycle().take(count) {
        bytes.push(*letter)?;
    }
    Ok(bytes)
}

/// Returns a name to which these bytes are added five at a time.
fn grown(alloc: Global, bytes: &[u8]) -> Result<Name, AllocError> {
    let mut name = Name::empty();
    for piece in bytes.chunks(5) {
        name.append(alloc, piece)?;
    }
    Ok(name)
}

/// Returns another name of the same length, or of one byte for the empty name.
fn other(alloc: Global, bytes: &[u8]) -> Result<Name, AllocError> {
    let mut other = Name::empty();
    if let Some((_, front)) = bytes.split_last() {
        other.append(alloc, front)?;
    }
    other.append(alloc, b"-")?;
    Ok(other)
}

/// Names of the same bytes, each made in its own way, and another name.
#[derive(Drop)]
struct Names {
    copied: Name,
    moved: Name,
    grown: Name,
    other: Name,
}

/// Returns the names of these bytes.
fn names_of(alloc: Global, bytes: Vec<u8>) -> Result<Names, AllocError> {
    let grown = grown(alloc, bytes.as_slice())?;
    let other = other(alloc, bytes.as_slice())?;
    let copied = Name::from_slice(alloc, bytes.as_slice())?;
    Ok(Names {
        copied: copied.copy(alloc)?,
        moved: Name::from_vec(alloc, bytes)?,
        grown,
        other,
    })
}

/// Returns as text which of the names are equal.
fn compared(alloc: Global, names: &Names) -> Result<String, AllocError> {
    let moved = names.copied == names.moved;
    let grown = names.copied == names.grown;
    let other = names.copied == names.other;
    format!(in alloc; "{moved} {grown} {other}")
}

/// Returns whether each name is in a set of the copied name and the other name, and the size of the
/// set.
fn found_in_set(alloc: Global, names: Names) -> Result<String, Fail> {
    let Names {
        copied,
        moved,
        grown,
        other,
    } = names;
    let mut seen = HashSet::new(alloc);
    let first = seen.insert(copied)?;
    let without = seen.contains(&other);
    seen.insert(other)?;
    let moved = seen.contains(&moved);
    let again = seen.insert(grown)?;
    Ok(format!(in alloc; "{first} {without} {moved} {again} {}", seen.len())?)
}

/// Returns the results for the names of this length: the length and the last letters, which names
/// are equal, and what a set gives for them.
fn row(alloc: Global, count: usize) -> Result<String, Fail> {
    let names = names_of(alloc, letters(alloc, count)?)?;
    let len = names.moved.len();
    let is_empty = names.moved.is_empty();
    let text = String::from_str(alloc, str::from_utf8(names.copied.as_slice())?)?;
    let compared = compared(alloc, &names)?;
    let found = found_in_set(alloc, names)?;
    Ok(format!(in alloc; "{len} {is_empty} {compared} {found} [{text}]\n")?)
}

/// The expected results for names around the largest length that a name stores in itself.
const NAMES: &str = "0 true true true false true false true false 2 []
1 false true true false true false true false 2 [a]
21 false true true false true false true false 2 [abcdefghijklmnopqrstu]
22 false true true false true false true false 2 [abcdefghijklmnopqrstuv]
23 false true true false true false true false 2 [abcdefghijklmnopqrstuvw]
24 false true true false true false true false 2 [abcdefghijklmnopqrstuvwx]
256 false true true false true false true false 2 [abcdefghijklmnopqrstuvwxyzabcdefghijklmnopqrstuvwxyzabcdefghijklmnopqrstuvwxyzabcdefghijklmnopqrstuvwxyzabcdefghijklmnopqrstuvwxyzabcdefghijklmnopqrstuvwxyzabcdefghijklmnopqrstuvwxyzabcdefghijklmnopqrstuvwxyzabcdefghijklmnopqrstuvwxyzabcdefghijklmnopqrstuv]
";

#[test]
fn names_of_each_length(rt: HostRuntime) -> Result<(), Fail> {
    let alloc = rt.alloc();
    let mut found = String::new(alloc);
    for count in [0, 1, 21, 22, 23, 24, 256] {
        found.push_str(row(alloc, count)?.as_str())?;
    }
    check(&rt, "names of each length", found.as_str(), NAMES);
    Ok(())
}

//! The words and keys that name files.

ghost use Rattle.std.specs.Prelude.{◌≡◌, ◌↔◌, ◌++◌, IfOk, IsTrue, map, string_bytes, option_to_list};
ghost use Rattle.ipdl_base.specs.FileNames.{IsFileWord};
ghost use Rattle.ipdl_base.specs.Words as words;
ghost use Rattle.ipdl_syntax.specs.Programs.{ending, named_key};
ghost use Rattle.include_graph.specs.Keys as keys;

use ipdl_base::{HEADER_ENDING, Name, PROTOCOL_ENDING, is_file_word, short_name};
use ipdl_syntax::{FileKind, Include, IncludeKind};
use std::alloc::{AllocError, Global};

/// The most words of a command.
const MOST_WORDS: usize = 4096;

/// Returns whether a protocol of this full name has the name of the file of this key.
pub fn bears_name(full: &[u8], key: &[u8]) -> bool
    ensures { IsTrue result ↔ (words.short_name full.now ++ ending FileKind.Protocol ≡ key.now) }
{
    let short = short_name(full);
    let Some(n) = key.len().checked_sub(PROTOCOL_ENDING.len()) else {
        return false;
    };
    let (front, back) = key.split_at(n);
    front == short && back == PROTOCOL_ENDING
}

/// Returns whether `load` takes these words: there are at most 4,096, and each ends in `.ipdl` or
/// `.ipdlh`.
pub fn are_file_words(words: &[String]) -> bool
    ensures { IsTrue result ↔ keys.AreFileWords (map string_bytes words.now) }
{
    if words.len() > MOST_WORDS {
        return false;
    }
    for word in words {
        if !is_file_word(word.as_bytes()) {
            return false;
        }
    }
    true
}

/// Returns the kind of the file of a key.
pub fn kind_of(key: &[u8]) -> FileKind
    requires { IsFileWord key.now }
    ensures { keys.HasKind key.now result }
{
    if key.ends_with(HEADER_ENDING) {
        FileKind::Header
    } else {
        FileKind::Protocol
    }
}

/// Returns a name followed by an ending.
fn with_ending(alloc: Global, name: &[u8], ending: &[u8]) -> Result<Name, AllocError>
    ensures { IfOk result (λ key. key ≡ name.now ++ ending.now) }
{
    let mut key = Name::from_slice(alloc, name)?;
    key.append(alloc, ending)?;
    Ok(key)
}

/// Returns the key of the file that an include names, or `None` if it names no file.
pub fn named_key_of(alloc: Global, include: &Include) -> Result<Option<Name>, AllocError>
    ensures { IfOk result (λ key. option_to_list key ≡ named_key include.now.kind include.now.name) }
{
    match include.kind {
        IncludeKind::Protocol => Ok(Some(with_ending(
            alloc,
            include.name.as_slice(),
            PROTOCOL_ENDING,
        )?)),
        IncludeKind::Header => Ok(Some(with_ending(
            alloc,
            include.name.as_slice(),
            HEADER_ENDING,
        )?)),
        IncludeKind::Quoted => Ok(None),
    }
}

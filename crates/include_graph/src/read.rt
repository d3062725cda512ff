//! Reads the file of a key: under the word that has the key, or in the first directory of the path
//! with such a file.
ghost use Rattle.std.specs.Prelude.{◌≡◌, ◌≢◌, ◌≤◌, ◌++◌, Err, IfOk, IfSome, OnOk, Some, None, Option, List, ℕ, map, string_bytes};
ghost use Rattle.std.specs.List.{AllPairs};
ghost use Rattle.std.specs.Option.{option_copied, option_or};
ghost use Rattle.std.specs.Str.{IsUtf8};
ghost use Rattle.ipdl_base.specs.Outside.{HasAtMost, IsHeldWithin, Rose};
ghost use Rattle.ipdl_base.specs.FileNames.{IsFileWord, key_of};
ghost use Rattle.file_log.specs.Log.{EndsWithReads, ForReads, HaveNames};
ghost use Rattle.file_log.specs.Recorded.{files_of, reads_of};
ghost use Rattle.include_graph.specs.Sources.{in_directory as the_name_in, name_on_path};
ghost use Rattle.include_graph.specs.Reading.{IsContent, IsFirstOnPath, IsSource};
ghost use Rattle.include_graph.specs.declared.content.Content.TheVariants.{Absent};

use crate::content::{Content, content_of_bytes};
use file_log::RecordedFiles;
use ipdl_base::{Failure, FileBytes, Files, MOST_BYTES, Name};
use std::alloc::{AllocError, Global};

/// The result of reading the file of a key.
#[derive(Drop)]
pub struct SourceFile {
    /// The name under which the file was read, or the key if there is no such file.
    pub text: Name,
    /// The content of the file.
    pub content: Content,
}

/// Returns the content of the file of this number and key, from what was read.
fn content_of_found(
    alloc: Global,
    number: u32,
    key: &[u8],
    found: &FileBytes,
) -> Result<Content, AllocError>
    requires word { IsFileWord key.now }
    requires small { HasAtMost MOST_BYTES found.now }
    ensures { IfOk result (λ content. (held : Option (List ℕ)) → IsHeldWithin MOST_BYTES held found.now → IsContent number key.now held content) }
{
    match found {
        FileBytes::Absent => Ok(Content::Absent),
        FileBytes::Larger => Ok(Content::Large),
        FileBytes::Bytes(bytes) => content_of_bytes(alloc, number, key, bytes.as_slice()),
    }
}

/// Reads the file of a key under this word.
fn read_word<F: Files>(
    alloc: Global,
    files: &mut RecordedFiles<F>,
    word: &str,
    key: &[u8],
    number: u32,
) -> Result<SourceFile, Failure>
    requires word { IsFileWord key.now }
    requires named { key_of word.now ≡ key.now }
    ensures source { IfOk result (λ source. ForReads (F.known (files_of files.old)) (reads_of files.old) (reads_of files.new) (λ files'. IsSource number key.now files' (Some word.now) source)) }
    ensures names { OnOk result (HaveNames (λ name. key_of name ≡ key.now) (reads_of files.old) (reads_of files.new)) }
    ensures ended { EndsWithReads result (reads_of files.old) (reads_of files.new) }
    ensures told { F.known (files_of files.new) ≡ F.known (files_of files.old) }
    ensures count { F.faults (files_of files.old) ≤ F.faults (files_of files.new) }
    ensures read_fault { result ≡ Err Failure.ReadFault → Rose (F.faults (files_of files.old)) (F.faults (files_of files.new)) }
{
    let found = files.read(alloc, word, MOST_BYTES)?;
    let content = content_of_found(alloc, number, key, &found)?;
    Ok(SourceFile {
        text: Name::from_slice(alloc, word.as_bytes())?,
        content,
    })
}

/// Returns the name of a key in a directory.
fn in_directory(alloc: Global, directory: &str, key: &str) -> Result<String, AllocError>
    ensures { IfOk result (λ name. string_bytes name ≡ the_name_in directory.now key.now) }
{
    let mut name = String::new(alloc);
    if directory != "." {
        name.push_str(directory)?;
        name.push_str("/")?;
    }
    name.push_str(key)?;
    Ok(name)
}

/// A file that was found on the path.
#[derive(Drop)]
struct FoundFile {
    /// The name under which it was found.
    name: String,
    /// The bytes that were read.
    found: FileBytes,
}

/// Searches for a key in the directories of the path, and returns the first file of this key, or
/// `None`.
fn find_on_path<F: Files>(
    alloc: Global,
    files: &mut RecordedFiles<F>,
    path: &[&str],
    key: &str,
) -> Result<Option<FoundFile>, Failure>
    requires own { key_of key.now ≡ key.now }
    requires directories { AllPairs (λ one other. one ≢ other) (map (λ directory. directory.now) path.now) }
    ensures first { IfOk result (λ first. ForReads (F.known (files_of files.old)) (reads_of files.old) (reads_of files.new)
        (λ files'. IsFirstOnPath files' (map (λ directory. directory.now) path.now) key.now first)) }
    ensures small { IfOk result (λ first. IfSome first (λ file. HasAtMost MOST_BYTES file.found)) }
    ensures names { OnOk result (HaveNames (λ name. key_of name ≡ key.now) (reads_of files.old) (reads_of files.new)) }
    ensures ended { EndsWithReads result (reads_of files.old) (reads_of files.new) }
    ensures told { F.known (files_of files.new) ≡ F.known (files_of files.old) }
    ensures count { F.faults (files_of files.old) ≤ F.faults (files_of files.new) }
    ensures read_fault { result ≡ Err Failure.ReadFault → Rose (F.faults (files_of files.old)) (F.faults (files_of files.new)) }
{
    for directory in path {
        let name = in_directory(alloc, directory, key)?;
        match files.read(alloc, name.as_str(), MOST_BYTES)? {
            FileBytes::Absent => {}
            found => return Ok(Some(FoundFile { name, found })),
        }
    }
    Ok(None)
}

/// Returns the result for a key whose file was found.
fn source_of_found(
    alloc: Global,
    number: u32,
    key: &[u8],
    file: FoundFile,
) -> Result<SourceFile, AllocError>
    requires word { IsFileWord key.now }
    requires small { HasAtMost MOST_BYTES file.found }
    ensures text { IfOk result (λ source. source.text ≡ string_bytes file.name) }
    ensures content { IfOk result (λ source. (held : Option (List ℕ)) → IsHeldWithin MOST_BYTES held file.found → IsContent number key.now held source.content) }
{
    let FoundFile { name, found } = file;
    let content = content_of_found(alloc, number, key, &found)?;
    Ok(SourceFile {
        text: Name::from_vec(alloc, name.into_bytes())?,
        content,
    })
}

/// Returns the result for a key without a file.
fn absent_source(alloc: Global, key: &[u8]) -> Result<SourceFile, AllocError>
    ensures text { IfOk result (λ source. source.text ≡ key.now) }
    ensures content { IfOk result (λ source. source.content ≡ Absent) }
{
    Ok(SourceFile {
        text: Name::from_slice(alloc, key)?,
        content: Content::Absent,
    })
}

/// Searches for the file of a key on the path, and reads it.
fn read_on_path<F: Files>(
    alloc: Global,
    files: &mut RecordedFiles<F>,
    path: &[&str],
    key: &[u8],
    number: u32,
) -> Result<SourceFile, Failure>
    requires word { IsFileWord key.now }
    requires own { key_of key.now ≡ key.now }
    requires utf8 { IsUtf8 key.now }
    requires directories { AllPairs (λ one other. one ≢ other) (map (λ directory. directory.now) path.now) }
    ensures source { IfOk result (λ source. ForReads (F.known (files_of files.old)) (reads_of files.old) (reads_of files.new)
        (λ files'. IsSource number key.now files' (name_on_path files' (map (λ directory. directory.now) path.now) key.now) source)) }
    ensures names { OnOk result (HaveNames (λ name. key_of name ≡ key.now) (reads_of files.old) (reads_of files.new)) }
    ensures ended { EndsWithReads result (reads_of files.old) (reads_of files.new) }
    ensures told { F.known (files_of files.new) ≡ F.known (files_of files.old) }
    ensures count { F.faults (files_of files.old) ≤ F.faults (files_of files.new) }
    ensures read_fault { result ≡ Err Failure.ReadFault → Rose (F.faults (files_of files.old)) (F.faults (files_of files.new)) }
{
    let Ok(text) = str::from_utf8(key) else {
        unreachable!()
    };
    match find_on_path(alloc, files, path, text)? {
        None => Ok(absent_source(alloc, key)?),
        Some(file) => Ok(source_of_found(alloc, number, key, file)?),
    }
}

/// Reads the file of a key under the word that has the key, or from the path if no word has it.
pub fn read_key<F: Files>(
    alloc: Global,
    files: &mut RecordedFiles<F>,
    word: Option<&str>,
    path: &[&str],
    key: &[u8],
    number: u32,
) -> Result<SourceFile, Failure>
    requires word { IsFileWord key.now }
    requires own { key_of key.now ≡ key.now }
    requires named { (text : List ℕ) → option_copied word ≡ Some text → key_of text ≡ key.now }
    requires utf8 { option_copied word ≡ None → IsUtf8 key.now }
    requires directories { AllPairs (λ one other. one ≢ other) (map (λ directory. directory.now) path.now) }
    ensures source { IfOk result (λ source. ForReads (F.known (files_of files.old)) (reads_of files.old) (reads_of files.new)
        (λ files'. IsSource number key.now files' (option_or (option_copied word.entry) (name_on_path files' (map (λ directory. directory.now) path.now) key.now)) source)) }
    ensures names { OnOk result (HaveNames (λ name. key_of name ≡ key.now) (reads_of files.old) (reads_of files.new)) }
    ensures ended { EndsWithReads result (reads_of files.old) (reads_of files.new) }
    ensures told { F.known (files_of files.new) ≡ F.known (files_of files.old) }
    ensures count { F.faults (files_of files.old) ≤ F.faults (files_of files.new) }
    ensures read_fault { result ≡ Err Failure.ReadFault → Rose (F.faults (files_of files.old)) (F.faults (files_of files.new)) }
{
    match word {
        Some(word) => read_word(alloc, files, word, key, number),
        None => read_on_path(alloc, files, path, key, number),
    }
}

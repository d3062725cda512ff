//! Reads all files that words reach, and lists their keys in the order of the reach.
ghost use Rattle.std.specs.Prelude.{◌≡◌, ◌≢◌, ◌≤◌, [], Err, IfOk, OnOk, map, string_bytes, length};
ghost use Rattle.std.specs.List.{AllPairs, AllZip};
ghost use Rattle.ipdl_base.specs.Outside.{Rose};
ghost use Rattle.file_log.specs.Log.{EndsWithReads, ForReads};
ghost use Rattle.file_log.specs.Recorded.{files_of, reads_of};
ghost use Rattle.ipdl_syntax.specs.Programs.{named_key, named_keys};
ghost use Rattle.include_graph.specs.Keys.{AreFileWords, word_keys};
ghost use Rattle.include_graph.specs.Growth.{add_keys, AreDifferent, HasWords};
ghost use Rattle.include_graph.specs.Reading.{IsTarget, AreTargets, AreRead, IsGathered, row_of};

use crate::content::Content;
use crate::keys::named_key_of;
use crate::read::{SourceFile, read_key};
use file_log::RecordedFiles;
use grammar_laws::names_hold;
use indexmap::IndexSet;
use ipdl_base::{Failure, Files, Name, key_of};
use ipdl_lex::words_hold;
use ipdl_syntax::Include;
use std::alloc::{AllocError, Global};

/// The most files that are reached.
const MOST_FILES: usize = 4096;

/// What an include leads to.
#[derive(Clone, Copy)]
pub enum Target {
    /// It names no file.
    Nothing,
    /// It names a file for which there is no room.
    LeftOut,
    /// It names the file of this number.
    File(u32),
}

/// A file that is reached.
#[derive(Drop)]
pub struct ReachedFile {
    /// The file as it was read.
    pub source: SourceFile,
    /// What each include of its tree leads to.
    pub targets: Vec<Target>,
}

/// Adds the keys of the words, each once, and for each key the first word that has it.
fn add_words<'a>(
    alloc: Global,
    words: &'a [String],
    keys: &mut IndexSet<Name>,
    firsts: &mut Vec<&'a str>,
) -> Result<(), AllocError>
    requires keys { keys.old.keys ≡ [] }
    requires firsts { firsts.old.items ≡ [] }
    ensures { OnOk result (HasWords (map string_bytes words.now) keys.new.keys (map (λ first. first.now) firsts.new.items)) }
{
    for word in words {
        let key = Name::from_slice(alloc, key_of(word.as_bytes()))?;
        if keys.insert(key)? {
            firsts.push(word.as_str())?;
        }
    }
    Ok(())
}

/// Returns the directories of the path, each once, in the order of their first occurrences.
fn distinct_directories<'a>(alloc: Global, path: &'a [String]) -> Result<Vec<&'a str>, AllocError>
    ensures { IfOk result (λ distinct. AreDifferent (map string_bytes path.now) (map (λ directory. directory.now) distinct.items)) }
{
    let mut seen = IndexSet::new(alloc);
    let mut distinct = Vec::new(alloc);
    for directory in path {
        let name = Name::from_slice(alloc, directory.as_bytes())?;
        if seen.insert(name)? {
            distinct.push(directory.as_str())?;
        }
    }
    Ok(distinct)
}

/// Adds the key of the file that an include names, if it names one and there is room.
fn add_include(
    alloc: Global,
    include: &Include,
    keys: &mut IndexSet<Name>,
) -> Result<Target, AllocError>
    requires { length keys.old.keys ≤ 4096 }
    ensures keys { OnOk result (keys.new.keys ≡ add_keys keys.old.keys (named_key include.now.kind include.now.name)) }
    ensures target { IfOk result (IsTarget keys.new.keys include.now) }
{
    let Some(key) = named_key_of(alloc, include)? else {
        return Ok(Target::Nothing);
    };
    if let Some(number) = keys.get_index_of(&key) {
        return Ok(Target::File(number as u32));
    }
    let number = keys.len();
    if number >= MOST_FILES {
        return Ok(Target::LeftOut);
    }
    keys.insert(key)?;
    Ok(Target::File(number as u32))
}

/// Adds the keys of the includes in turn.
fn add_includes(
    alloc: Global,
    includes: &[Include],
    keys: &mut IndexSet<Name>,
) -> Result<Vec<Target>, AllocError>
    requires { length keys.old.keys ≤ 4096 }
    ensures keys { OnOk result (keys.new.keys ≡ add_keys keys.old.keys (named_keys includes.now)) }
    ensures targets { IfOk result (λ targets. AllZip (IsTarget keys.new.keys) includes.now targets.items) }
{
    let mut targets = Vec::new(alloc);
    for include in includes {
        targets.push(add_include(alloc, include, keys)?)?;
    }
    Ok(targets)
}

/// Adds the keys that a file names.
fn add_named(
    alloc: Global,
    content: &Content,
    keys: &mut IndexSet<Name>,
) -> Result<Vec<Target>, AllocError>
    requires { length keys.old.keys ≤ 4096 }
    ensures keys { OnOk result (keys.new.keys ≡ add_keys keys.old.keys (row_of content.now)) }
    ensures targets { IfOk result (λ targets. AreTargets keys.new.keys content.now targets.items) }
{
    match content {
        Content::Read(unit) => add_includes(alloc, unit.includes.as_slice(), keys),
        _ => Ok(Vec::new(alloc)),
    }
}

/// Reads the files of the keys in order, and adds the keys that they name. `keys` begins with those
/// of the words.
fn walk<F: Files>(
    alloc: Global,
    files: &mut RecordedFiles<F>,
    words: &[String],
    firsts: &[&str],
    path: &[&str],
    keys: &mut IndexSet<Name>,
) -> Result<Vec<ReachedFile>, Failure>
    requires words { AreFileWords (map string_bytes words.now) }
    requires directories { AllPairs (λ one other. one ≢ other) (map (λ directory. directory.now) path.now) }
    requires keys { HasWords (map string_bytes words.now) keys.old.keys (map (λ first. first.now) firsts.now) }
    ensures read { IfOk result (λ reached. ForReads (F.known (files_of files.old)) (reads_of files.old) (reads_of files.new) (λ files'. AreRead
        (record { files = files'; words = map string_bytes words.now; path = map (λ directory. directory.now) path.now }) keys.new.keys reached.items)) }
    ensures ended { EndsWithReads result (reads_of files.old) (reads_of files.new) }
    ensures told { F.known (files_of files.new) ≡ F.known (files_of files.old) }
    ensures count { F.faults (files_of files.old) ≤ F.faults (files_of files.new) }
    ensures read_fault { result ≡ Err Failure.ReadFault → Rose (F.faults (files_of files.old)) (F.faults (files_of files.new)) }
{
    words_hold();
    names_hold();
    let mut reached = Vec::with_capacity(alloc, words.len())?;
    'files: while let Some(key) = keys.get_index(reached.len()) {
        let number = reached.len();
        let word = firsts.get(number).copied();
        let source = read_key(alloc, files, word, path, key.as_slice(), number as u32)?;
        let targets = add_named(alloc, &source.content, keys)?;
        reached.push(ReachedFile { source, targets })?;
    }
    Ok(reached)
}

/// The files that are reached, with their keys.
#[derive(Drop)]
pub struct FileSet {
    /// The number of keys of words. They come first.
    pub words: usize,
    /// The keys in the order of the reach.
    pub keys: IndexSet<Name>,
    /// The file of each key.
    pub files: Vec<ReachedFile>,
}

/// Reads all files that the words reach, each once, in the order of the reach.
pub fn gather<F: Files>(
    alloc: Global,
    files: &mut RecordedFiles<F>,
    words: &[String],
    path: &[String],
) -> Result<FileSet, Failure>
    requires { AreFileWords (map string_bytes words.now) }
    ensures gathered { IfOk result (λ g. ForReads (F.known (files_of files.old)) (reads_of files.old) (reads_of files.new) (λ files'. IsGathered
        (record { files = files'; words = map string_bytes words.now; path = map string_bytes path.now }) g.words g.keys.keys g.files.items)) }
    ensures ended { EndsWithReads result (reads_of files.old) (reads_of files.new) }
    ensures told { F.known (files_of files.new) ≡ F.known (files_of files.old) }
    ensures count { F.faults (files_of files.old) ≤ F.faults (files_of files.new) }
    ensures read_fault { result ≡ Err Failure.ReadFault → Rose (F.faults (files_of files.old)) (F.faults (files_of files.new)) }
{
    let mut keys = IndexSet::new(alloc);
    let mut firsts = Vec::new(alloc);
    add_words(alloc, words, &mut keys, &mut firsts)?;
    let directories = distinct_directories(alloc, path)?;
    let files = walk(
        alloc,
        files,
        words,
        firsts.as_slice(),
        directories.as_slice(),
        &mut keys,
    )?;
    Ok(FileSet {
        words: firsts.len(),
        keys,
        files,
    })
}

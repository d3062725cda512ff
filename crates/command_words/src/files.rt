//! The files that the words of a command name.
ghost use Rattle.std.specs.Prelude.{◌≡◌, ◌∷◌, ◌++◌, [], List, ℕ, IfErr, IfOk, OnOk, map, string_bytes};
ghost use Rattle.command_words.specs.Compile.{AreFiles, AreListed};
ghost use Rattle.command_words.specs.Listed.{IsKeyed, names_of};

use crate::WordsFault;
use crate::texts::copies_of;
use indexmap::IndexMap;
use ipdl_base::{is_file_word, key_of};
use std::alloc::{AllocError, Global};

/// The most files that a command may name.
const MOST_FILES: usize = 4096;

/// Adds the file that a word names, unless an equal word named it before.
fn note_file<'a>(files: &mut IndexMap<&'a [u8], &'a str>, word: &'a str) -> Result<(), WordsFault>
    requires { IsKeyed files.old }
    ensures keyed { OnOk result (IsKeyed files.new) }
    ensures noted { OnOk result ((seen : List (List ℕ)) → AreListed seen (names_of files.old) → AreListed (seen ++ word.entry.now ∷ []) (names_of files.new)) }
    ensures usage { IfErr result (λ fault. fault ≡ WordsFault.Usage → (seen more all : List (List ℕ))
        → AreListed seen (names_of files.old) → ¬ AreListed (seen ++ word.entry.now ∷ more) all) }
{
    let bytes = word.as_bytes();
    if !is_file_word(bytes) {
        return Err(WordsFault::Usage);
    }
    let key = key_of(bytes);
    match files.get(&key) {
        Some(first) => {
            if *first == word {
                Ok(())
            } else {
                Err(WordsFault::Usage)
            }
        }
        None => {
            if files.len() >= MOST_FILES {
                return Err(WordsFault::Usage);
            }
            files.insert(key, word)?;
            Ok(())
        }
    }
}

/// Returns the files that words name, each of them once.
fn noted_files<'a>(
    alloc: Global,
    words: &[&'a str],
) -> Result<IndexMap<&'a [u8], &'a str>, WordsFault>
    ensures noted { IfOk result (λ files. AreListed (map (λ w. w.now) words.entry.now) (names_of files)) }
    ensures usage { IfErr result (λ fault. fault ≡ WordsFault.Usage → (files : List (List ℕ)) → ¬ AreListed (map (λ w. w.now) words.entry.now) files) }
{
    let mut files = IndexMap::new(alloc);
    for word in words {
        note_file(&mut files, word)?;
    }
    Ok(files)
}

/// Returns the names of these files, in order.
fn names_in<'a>(
    alloc: Global,
    files: &IndexMap<&'a [u8], &'a str>,
) -> Result<Vec<&'a str>, AllocError>
    ensures { IfOk result (λ names. map (λ name. name.now) names.items ≡ names_of files.entry.now) }
{
    files.values().copied().collect(alloc)
}

/// Returns the names of the files that words name, in the order of their first words.
fn file_names<'a>(alloc: Global, words: &[&'a str]) -> Result<Vec<&'a str>, WordsFault>
    ensures names { IfOk result (λ names. AreListed (map (λ w. w.now) words.entry.now) (map (λ name. name.now) names.items)) }
    ensures usage { IfErr result (λ fault. fault ≡ WordsFault.Usage → (files : List (List ℕ)) → ¬ AreListed (map (λ w. w.now) words.entry.now) files) }
{
    let files = noted_files(alloc, words)?;
    Ok(names_in(alloc, &files)?)
}

/// Returns the files that the words of a command name, in the order of their first words.
pub fn files_of(alloc: Global, words: &[&str]) -> Result<Vec<String>, WordsFault>
    ensures files { IfOk result (λ files. AreFiles (map (λ w. w.now) words.entry.now) (map string_bytes files.items)) }
    ensures usage { IfErr result (λ fault. fault ≡ WordsFault.Usage → (files : List (List ℕ)) → ¬ AreFiles (map (λ w. w.now) words.entry.now) files) }
{
    let names = file_names(alloc, words)?;
    if names.is_empty() {
        return Err(WordsFault::Usage);
    }
    Ok(copies_of(alloc, names.as_slice())?)
}

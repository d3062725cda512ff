//! Copies of words.
ghost use Rattle.std.specs.Prelude.{◌≡◌, IfOk, map, option_map, string_bytes};

use std::alloc::{AllocError, Global};

/// Returns copies of the words.
pub fn copies_of(alloc: Global, words: &[&str]) -> Result<Vec<String>, AllocError>
    ensures { IfOk result (λ copies. map string_bytes copies.items ≡ map (λ w. w.now) words.entry.now) }
{
    let mut copies = Vec::with_capacity(alloc, words.len())?;
    for word in words {
        copies.push(String::from_str(alloc, word)?)?;
    }
    Ok(copies)
}

/// Returns a copy of the word, if there is one.
pub fn copy_of(alloc: Global, word: Option<&str>) -> Result<Option<String>, AllocError>
    ensures { IfOk result (λ copy. option_map string_bytes copy ≡ option_map (λ w. w.now) word.entry) }
{
    match word {
        Some(word) => Ok(Some(String::from_str(alloc, word)?)),
        None => Ok(None),
    }
}

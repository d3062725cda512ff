//! The folders of `--path`.
ghost use Rattle.std.specs.List.{list_all};
ghost use Rattle.std.specs.Prelude.{◌≡◌, ◌==◌, not, length, List, ℕ, IfErr, IfOk, map, option_map, string_bytes};
ghost use Rattle.command_words.specs.Compile.{AreDirs, IsPath};
ghost use Rattle.command_words.specs.Listed.{pieces};

use crate::WordsFault;
use crate::texts::copies_of;
use std::alloc::{AllocError, Global};

/// The most folders that `--path` may give.
const MOST_FOLDERS: usize = 64;

/// Returns whether no piece is empty.
fn are_full(pieces: &[&str]) -> bool
    ensures { result ≡ list_all (λ p. not (length p.now == 0)) pieces.now }
{
    pieces.iter().all(|piece| !piece.is_empty())
}

/// Returns the pieces of a text between its colons.
fn pieces_of(alloc: Global, text: &str) -> Result<Vec<&str>, AllocError>
    ensures { IfOk result (λ found. map (λ p. p.now) found.items ≡ pieces text.entry.now) }
{
    text.split(':').collect(alloc)
}

/// Returns the folders that a value of `--path` gives.
fn folders_in(alloc: Global, dirs: &str) -> Result<Vec<String>, WordsFault>
    ensures dirs { IfOk result (λ folders. AreDirs dirs.now (map string_bytes folders.items)) }
    ensures usage { IfErr result (λ fault. fault ≡ WordsFault.Usage → (folders : List (List ℕ)) → ¬ AreDirs dirs.now folders) }
{
    let found = pieces_of(alloc, dirs)?;
    let pieces = found.as_slice();
    if pieces.len() > MOST_FOLDERS || !are_full(pieces) {
        return Err(WordsFault::Usage);
    }
    Ok(copies_of(alloc, pieces)?)
}

/// Returns the folders of the path: those of the value of `--path`, or `.` alone without it.
pub fn folders_of(alloc: Global, dirs: Option<&str>) -> Result<Vec<String>, WordsFault>
    ensures path { IfOk result (λ folders. IsPath (option_map (λ d. d.now) dirs.entry) (map string_bytes folders.items)) }
    ensures usage { IfErr result (λ fault. fault ≡ WordsFault.Usage → (folders : List (List ℕ)) → ¬ IsPath (option_map (λ d. d.now) dirs.entry) folders) }
{
    match dirs {
        Some(dirs) => folders_in(alloc, dirs),
        None => Ok(copies_of(alloc, &["."])?),
    }
}

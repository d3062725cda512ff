//! Loads the files that a command reaches: gives their program, or the rules that they break by how
//! they are read and named (docs/reach.md).
#![tactic(auto)]

mod content;
mod keys;
mod laws;
mod loader;
mod program;
mod read;
mod rules;
mod walk;

pub use keys::are_file_words;
pub use laws::one_reach;
pub use loader::{BrokenFiles, LoadResult, load};

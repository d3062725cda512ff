//! A program: the files that it reaches, as entries.

use crate::tree::Unit;
use ipdl_base::{Items, Name, Numbers};

/// A file of a program.
#[derive(Drop)]
pub struct Entry {
    /// The part of the file's name after the last `/`.
    pub key: Name,
    /// The name under which the file was read.
    pub name: Name,
    /// The tree of the file.
    pub unit: Unit,
    /// For each include that names a file, in text order: the index of that file's entry.
    pub includes: Numbers,
}

/// The files that a program reaches, each once, in the order in which they are reached.
pub type Program = Items<Entry>;

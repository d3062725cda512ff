//! The laws of the grammar of files.

ghost use Rattle.grammar_laws.specs.Laws.{HasOneTree, LimitsHold, FilesHold, NamesHold, PlacesHold};

/// The law of the tree: tokens have at most one tree for each kind of file, up to where its boxes lie.
pub fn one_tree()
    ensures { HasOneTree }
{}

/// The law of limits: a type that the grammar takes has at most four suffixes, and at most four
/// nested `UniquePtr`, each around a type with at most four suffixes.
pub fn limits_hold()
    ensures { LimitsHold }
{}

/// The law of the two kinds of file: a header has no protocol, and a protocol file has one.
pub fn files_hold()
    ensures { FilesHold }
{}

/// The law of names: if the text of each word among some tokens is a word, then the names in their
/// tree are words, or words joined by colons.
pub fn names_hold()
    ensures { NamesHold }
{}

/// The law of places: if tokens are in one file, then so are all places in their tree.
pub fn places_hold()
    ensures { PlacesHold }
{}

//! What follows from the grammar of files, for all tokens: the laws of the definitions of
//! `ipdl_syntax`.
#![tactic(auto)]

mod laws;

pub use laws::{files_hold, limits_hold, names_hold, one_tree, places_hold};

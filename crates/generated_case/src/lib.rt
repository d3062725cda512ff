//! A case that is made from two numbers: the files and the script of a large run, and the summary of
//! its history. This crate does not run anything.
#![tactic(auto)]

mod case;
mod counts;
mod summary;

pub use case::{GeneratedCase, generate};
pub use counts::Counts;
pub use summary::summary_text;

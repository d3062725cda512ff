//! Finds all ways of a script: what its runs may come to (docs/explore.md).
#![tactic(auto)]

mod histories;
mod letters;
mod runner;
mod search;
mod states;

pub use search::explore;

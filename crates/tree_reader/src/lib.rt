//! A predictive reader by recursive descent, which gives the tree of the tokens of a file, or where
//! it refuses them (docs/grammar.md).
#![tactic(auto)]

mod attributes;
mod body;
mod fields;
mod file;
mod heads;
mod lists;
mod messages;
mod names;
mod params;
mod reader;
mod refusal;
mod symbol;
mod types;

pub use file::read_file;
pub use refusal::TreeRefusal;
pub use symbol::Symbol;

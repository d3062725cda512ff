//! Parses the tokens of a file: gives their tree if they have one, or else the end of their longest
//! viable prefix (docs/grammar.md).
#![tactic(auto)]

mod parser;

pub use parser::{SyntaxFault, parse};

//! The definition of the schema of a program, and its laws: a program has at most one schema, and that of a
//! program that breaks no rule is sound (docs/tables.md). Also the rules on protocols, as the sum of those on
//! managers and those on messages (docs/protocols.md).
#![tactic(auto)]

mod laws;
mod protocol_rules;

pub use laws::{clean_is_sound, one_schema};
pub use protocol_rules::add_of_protocols;

//! The rules on types: what their names find, which types are defined, repeated declarations and
//! fields, and attributes (docs/types.md).
#![tactic(auto)]

mod attributes;
mod compounds;
mod declarations;
mod fields;
mod parts;
mod report;
mod undefined;
mod written;

pub use report::add_of_types;

//! Builds the schema of a program that breaks no rule, and writes the tables of any schema as text
//! (docs/tables.md).
#![tactic(auto)]

mod build;
mod carried;
mod messages;
mod numbers;
mod shapes;
mod source;
mod types;
mod words;
mod writer;

pub use build::schema;
pub use writer::table_text;

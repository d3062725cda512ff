//! The law that each program that breaks no rule has a schema. There is no function that runs.
#![tactic(auto)]

mod laws;

pub use laws::clean_programs_have_schemas;

//! Reads lines, values and messages from the text of a transcript, and gives the schemas of worked protocols.
//! For tests
//! only: crates of tests write what they expect as text, and the program does not use this crate.
#![tactic(auto)]

mod lists;
mod schemas;

pub use lists::{history_of, message_of, values_of};
pub use schemas::schema_of;

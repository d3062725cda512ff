//! Halves of a run: one end by its side of a script, whatever packets come to it; and relays, in which
//! what one half sends comes to the other in order (docs/relay.md). This crate has definitions and laws,
//! and no function that runs.
#![tactic(auto)]

mod laws;

pub use laws::{marks_come_last, turns_are_relays};

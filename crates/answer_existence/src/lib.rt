//! The law that words have exactly one answer, and what drives a run or a relay to its end. No function
//! here runs.
#![tactic(auto)]

mod laws;

pub use laws::{one_answer, relays_end, turns_relay_all, words_drive_all};

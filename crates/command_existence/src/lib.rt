//! The laws that words are a command or are not, and that they ask about something or about nothing. There is no function that
//! runs.
#![tactic(auto)]

mod laws;

pub use laws::{asking_is_decided, words_are_decided};

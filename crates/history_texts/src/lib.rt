//! The text of a history determines the history (docs/transcripts.md). No function of this crate computes
//! anything.
#![tactic(auto)]

mod laws;

pub use laws::texts_tell_histories;

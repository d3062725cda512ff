//! Laws that what a channel is asked for exists: the frames of all bytes, the run of every word of turns, how
//! far a run
//! prints a text, and the report of waits of every sound schema. No function of this crate computes anything.
#![tactic(auto)]

mod laws;

pub use laws::{bytes_have_frames, texts_are_decided, wait_reports_exist, words_have_runs};

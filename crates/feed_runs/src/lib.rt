//! A feed: a half by itself whose packets come from a list of bytes, whatever they are (docs/feed.md).
//! This crate has definitions and laws, and no function that runs.
#![tactic(auto)]

mod fault;
mod laws;

pub use fault::FeedFault;
pub use laws::{feeds_are_half_runs, feeds_have_one_result, feeds_read_frames};

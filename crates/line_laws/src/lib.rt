//! Lines are the same wherever the boxes of their values lie: their text is (docs/transcripts.md),
//! and the laws that hold of them are (docs/laws.md). No function that runs.
#![tactic(auto)]

mod laws;

pub use laws::{laws_see_no_box, texts_see_no_box};

//! What follows for the ways of a script (docs/explore.md): the lines of both sides tell the world, each legal
//! text is that of a way, and a script has one exploration at most. This crate has laws, and no function that runs.
#![tactic(auto)]

mod laws;

pub use laws::{
    alike_words_are_as_long, explorations_are_one, futures_are_alike, sides_tell_worlds,
    ways_are_run, ways_cover_texts, ways_differ,
};

//! Laws of schemas that are the same except for where the boxes of their types are: under them bytes are the
//! same frames, there is one report of waits, and a script with a word of turns makes the same run and has
//! the same ways (docs/theorems.md). No function of this crate computes anything.
#![tactic(auto)]

mod frames;
mod runs;
mod waits;
mod ways;

pub use frames::{frames_alike, frames_have_one_text, one_list_of_frames};
pub use runs::{
    choices_alike, events_alike, feeds_alike, picks_alike, relays_alike, scripts_alike,
    steps_alike, texts_alike,
};
pub use waits::{one_wait_report, waits_alike};
pub use ways::explorations_alike;

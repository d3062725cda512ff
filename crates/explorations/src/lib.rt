//! The ways of a script: all that its runs may come to, each with the first word of turns that leads there
//! (docs/explore.md).
#![tactic(auto)]

mod text;
mod way;

pub use text::exploration_text;
pub use way::{Exploration, Way};

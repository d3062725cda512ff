//! Runs two ends by a handler script: step by step, by a word of turns, or by a driver
//! (docs/scripts.md). The history of every run is a history of the script. Also runs one end by itself
//! against any bytes (docs/feed.md), and both ends of a run separately (docs/relay.md).
#![tactic(auto)]

mod answers;
mod counts;
mod driver;
mod feeding;
mod half;
mod laws;
mod link;
mod relay;
mod side_turns;
mod world;

pub use answers::{AcceptAnswer, MeetAnswer, RunAnswer, StepAnswer};
pub use driver::{Driver, OneThread};
pub use feed_runs::FeedFault;
pub use feeding::{FeedResult, feed};
pub use half::Half;
pub use laws::{
    feed_turns_are_possible, feeds_come_to_an_end, halves_fit_after_more, stored_lines_follow,
};
pub use link::Link;
pub use relay::{Halves, Relay, take_turns, turn_answer};
pub use schedules::{Stop, Turn};
pub use side_turns::SideOptions;
pub use world::{Replay, World};

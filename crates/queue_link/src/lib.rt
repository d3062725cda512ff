//! Runs both ends of a run at once, each on a thread of its own. They share two queues and a gate, and
//! nothing else (docs/relay.md).
#![tactic(auto)]

mod packets;
mod stamp;
mod steps;
mod turns;
mod two_queues;
mod workers;

pub use schedules::{Gate, MeetingPoint};
pub use two_queues::TwoQueues;

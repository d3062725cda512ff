//! Runs both ends of a run at the same time: the link that two threads share, and the driver that gives
//! each end a thread of its own (docs/threads.md).
#![tactic(auto)]

mod exchange;
mod parts;
mod pass;
mod threads;
mod turns;
mod workers;

pub use exchange::OpenFault;
pub use pass::{Exchange, Pass};
pub use schedules::{Gate, MeetingPoint};
pub use threads::TwoThreads;

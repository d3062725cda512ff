//! An unbounded queue that two threads share. It is in order: what was popped, followed by what is in
//! the queue, is what was pushed (docs/relay.md).
#![tactic(auto)]

mod queue;
mod view;

pub use queue::{OrderedQueue, QueuePass};
pub use view::PassView;

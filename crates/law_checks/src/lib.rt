//! Whether each of the five laws of histories holds of lines, a law a file (docs/laws.md).
#![tactic(auto)]

mod fallen;
mod living;
mod prefix;
mod replies;
mod settled;
mod verdict;
mod waits;

pub use history_reading::Law;
pub use verdict::holds;

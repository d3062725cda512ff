//! What may interrupt a wait in a run: in every legal history an end that waits for the reply to a sync
//! message handles
//! only the requests in the report of `wait_report` (docs/waits.md). No function of this crate computes
//! anything.
#![tactic(auto)]

mod laws;

pub use laws::{only_reported_interrupt, reports_are_whole, sendable_in_every_run};

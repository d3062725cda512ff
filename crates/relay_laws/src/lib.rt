//! A half run is a run of one end by itself, and obeys the laws of one end; and so does a feed. This crate
//! has laws, and no function that runs.
#![tactic(auto)]

mod laws;

pub use laws::{feeds_obey_alone, feeds_run_alone, half_runs_run_alone, relays_obey_alone};

//! How many events a run of a script has, by the actions of the script (docs/scripts.md). Laws about definitions: no function
//! here runs.
#![tactic(auto)]

mod laws;

pub use laws::{acts_are_actions, blocks_serve_once, runs_are_bounded, scripts_come_to_rest};

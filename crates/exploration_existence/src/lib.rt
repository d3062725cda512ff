//! A script has an exploration (docs/explore.md). This crate has a law, and no function that runs.
#![tactic(auto)]

mod laws;

pub use laws::explorations_exist;

//! Where a script has no handler that acts without end, its ways do not depend on the limit (docs/explore.md).
//! This crate has laws, and no function that runs.
#![tactic(auto)]

mod laws;

pub use laws::{limits_do_not_matter, ways_finish};

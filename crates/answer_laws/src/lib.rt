//! Laws of the answers of commands: no rule and no schema depends on where the boxes of trees lie
//! (docs/theorems.md). There is no function that runs.
#![tactic(auto)]

mod programs;

pub use programs::{break_alike, listed_alike, schemas_alike};

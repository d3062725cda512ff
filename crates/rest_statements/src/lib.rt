//! What is left where only acts are possible, as a statement on the lines of a history (docs/laws.md). It
//! follows from
//! other statements. No function of this crate computes anything.
#![tactic(auto)]

mod laws;

pub use laws::{histories_rest, rest_follows};

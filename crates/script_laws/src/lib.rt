//! The law of handler scripts: a text has at most one answer (docs/scripts.md). No function here runs.
#![tactic(auto)]

mod laws;

pub use laws::one_answer;

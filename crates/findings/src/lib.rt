//! The report on any rules: the findings of the broken rules, each once, in one order.
#![tactic(auto)]

mod laws;
mod repeats;
mod report;

pub use laws::one_report;
pub use repeats::{NamePlace, add_repeated};
pub use report::sort_findings;

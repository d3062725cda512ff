//! The law that every list of findings has a report, and the lemmas with which the laws of
//! existence list exactly the findings of a rule. There is no function that runs.
#![tactic(auto)]

mod laws;

pub use laws::findings_have_reports;

//! The law that each text has an answer as a sync list: it spells sections, or has a first line
//! that is not of the format. There is no function that runs.
#![tactic(auto)]

mod laws;

pub use laws::lists_have_answers;

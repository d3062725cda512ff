//! Laws of existence for handler scripts: each line has a reading; each text has a report of the rules
//! that it breaks, and a script or a report that is not empty. No function here runs.
#![tactic(auto)]

mod laws;

pub use laws::{lines_have_readings, reports_exist, scripts_exist, texts_have_readings};

//! Laws of the rules that programs break: for every program some list has exactly the findings of
//! its rules. There is no function that runs.
#![tactic(auto)]

mod laws;

pub use laws::{
    list_findings_are_listed, manager_findings_are_listed, message_findings_are_listed,
    type_findings_are_listed,
};

//! The sync list, which lists the messages that may be sync: reads its text, and adds the findings
//! of the rules that a program and a list break (docs/sync_list.md).
#![tactic(auto)]

mod laws;
mod line;
mod list;
mod names;
mod reader;
mod report;

pub use laws::one_list;
pub use list::{ListFault, Section, SyncList};
pub use reader::read_list;
pub use report::add_of_list;

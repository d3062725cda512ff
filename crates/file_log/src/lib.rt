//! Files whose reads are recorded, in a list that only contracts see (docs/theorems.md, "The outside"). The list takes no
//! memory and does not exist when the program runs.
#![tactic(auto)]

mod read_log;
mod recorded_files;

pub use read_log::{FileRead, ReadLog};
pub use recorded_files::RecordedFiles;

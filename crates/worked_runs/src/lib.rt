//! Texts for tests: files of worked protocols, worked runs over them, each with its script and with what
//! it prints (docs/scripts.md), and texts with what an audit reports of each (docs/audit.md). The program
//! does not use this crate.
#![tactic(auto)]

mod audits;
mod events;
mod protocols;
mod row;
mod runs;
mod swaps;

pub use audits::{AUDITS, RACE_SCRIPT};
pub use events::{events_of, swapped};
pub use protocols::protocol_files;
pub use row::{Row, row_named, row_of};
pub use runs::RUNS;
pub use swaps::SWAPS;

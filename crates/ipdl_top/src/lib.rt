//! The program over files and sinks of any kind: its words, its answer, and the writing of it.
#![tactic(auto)]

mod answer;
mod audit;
mod checked;
mod command_files;
mod commands;
mod compile;
mod ending;
mod exit;
mod explore;
mod feed;
mod frames;
mod generation;
mod help;
mod input_file;
mod laws;
mod list;
mod pipeline;
mod program;
mod reading;
mod relay;
mod rendering;
mod report;
mod rules;
mod run;
mod scripts;
mod status;
mod waits;
mod write;

pub use audit::{Audit, audit_text};
pub use laws::answer_is_determined;
pub use program::ipdl;
pub use status::Status;

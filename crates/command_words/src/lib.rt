//! The words of a command line, read as a command. This crate knows how words are read, and nothing of
//! what a command does.
#![tactic(auto)]

mod audit;
mod command;
mod compile;
mod courses;
mod explore;
mod fault;
mod feed;
mod files;
mod folders;
mod frames;
mod generation;
mod laws;
mod numbers;
mod operands;
mod options;
mod relay;
mod run;
mod texts;
mod topic;
mod waits;

pub use audit::AuditOptions;
pub use command::{Command, Sources, read_words};
pub use explore::ExploreOptions;
pub use fault::WordsFault;
pub use feed::FeedOptions;
pub use frames::FramesOptions;
pub use laws::{asking_is_no_command, one_command};
pub use relay::RelayOptions;
pub use run::RunOptions;
pub use topic::{CommandName, Topic, topic_of};

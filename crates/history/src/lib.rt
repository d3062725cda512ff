//! The history of a channel: a line for each event of an end and for each of its effects, and the text that a
//! transcript prints of them.
#![tactic(auto)]

mod history;
mod line_writer;
mod messages;
mod text;
mod words;

pub use history::History;
pub use ipdl_base::{Line, What};
pub use line_writer::LineWriter;
pub use text::{history_text, push_listed, push_message, push_numbered};
pub use words::reason_word;

//! The text of a transcript, line by line (docs/audit.md): where a line ends, what its first words report, and how far a
//! text is that of lines; and the law that its lines are those of its history (docs/transcripts.md).
#![tactic(auto)]

mod comparison;
mod laws;
mod line;

pub use comparison::{Comparison, LineMatch};
pub use laws::transcripts_are_lines;
pub use line::{Ending, TranscriptLine, read_ending, read_line, split_line};

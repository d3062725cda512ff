//! What an audit finds.

/// What an audit finds (docs/audit.md). Lines are numbered from 1.
#[derive(Clone, Copy, Debug, PartialEq, Eq)]
pub enum Audit {
    /// A run may print the text. The text has this number of events.
    Legal(u32),
    /// Every line of the text is one that a run may print there, but the text stops early: the line of this number is missing.
    Early(u32),
    /// The line of this number is the first that no run prints there, after the lines before it.
    NoStep(u32),
}

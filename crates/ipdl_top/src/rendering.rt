//! How a history is printed.

/// What is printed of a history.
#[derive(Clone, Copy, Debug, PartialEq, Eq)]
pub enum Rendering {
    /// Its transcript.
    Transcript,
    /// A summary, by the numbers of rounds and actors of the generated case that was run.
    Summary(u32, u32),
    /// Its picture.
    Chart,
}

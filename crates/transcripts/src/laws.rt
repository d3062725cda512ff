//! The law of the lines of a transcript.
ghost use Rattle.transcripts.specs.Laws.{TranscriptsAreLines};

/// The law of lines: those of a transcript are those of its history (docs/transcripts.md).
pub fn transcripts_are_lines()
    ensures { TranscriptsAreLines }
{}

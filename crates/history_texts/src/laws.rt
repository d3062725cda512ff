//! The law of texts.
ghost use Rattle.history_texts.specs.Laws.{TextsTellHistories};

/// The law of texts: the text of a legal history whose values have their types, and whose names are words,
/// determines the history (docs/transcripts.md).
pub fn texts_tell_histories()
    ensures { TextsTellHistories }
{}

//! The law of printed names.
ghost use Rattle.channel_laws.specs.PrintedNames.{LinesNameWhatIsPrinted};

/// The law of printed names: whatever the text of a line of a legal history looks up is there.
pub fn lines_name_what_is_printed()
    ensures { LinesNameWhatIsPrinted }
{}

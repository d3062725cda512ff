//! The laws that words are a command or are not, and that they ask about something or about nothing.

ghost use Rattle.command_existence.specs.Laws.{AskingIsDecided, WordsAreDecided};

/// The law of words: every list of words that are texts is a command, or is not.
pub fn words_are_decided()
    ensures { WordsAreDecided }
{}

/// The law of words that ask: every list of words asks about something, or about nothing.
pub fn asking_is_decided()
    ensures { AskingIsDecided }
{}

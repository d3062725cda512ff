//! The laws of words.
ghost use Rattle.command_words.specs.Command.{OneCommand};
ghost use Rattle.command_words.specs.Topics.{AskingIsNoCommand};

/// The law of words: they are at most one command.
pub fn one_command()
    ensures { OneCommand }
{}

/// The law of words that ask: they are no command, so each form of help prints help.
pub fn asking_is_no_command()
    ensures { AskingIsNoCommand }
{}

//! The options of a command, and the words by which they are given.
ghost use Rattle.std.specs.Prelude.{◌≡◌, List, ℕ, false, IfErr, IfOk, OnErr, map, option_map, string_bytes};
ghost use Rattle.clap.specs.Words.{app_of, rule_of};
ghost use Rattle.command_words.specs.Forms.{form_of, rule_for};
ghost use Rattle.command_words.specs.Options.{EachOnce, Reads, WordUse};
ghost use Rattle.command_words.specs.Tables.{IsTable, choice_of, choices_of};
ghost use Rattle.command_words.specs.Found.{IsFound};

use crate::WordsFault;
use clap::{Arg, ArgAction, ArgMatches, Command};
use std::alloc::{AllocError, Global};

/// An option of a command, which takes a value.
pub struct Choice {
    /// The name of the option, with which it is written `--name`.
    pub name: &'static str,
    /// The letter with which it may be written `-l`.
    pub letter: Option<char>,
}

/// Returns an option as the parser takes it.
fn argument_of<'a>(alloc: Global, option: &Choice) -> Arg<'a>
    ensures rule { rule_of result ≡ rule_for (choice_of option.now) }
    ensures local { result.global ≡ false }
{
    let argument = Arg::new(alloc, option.name)
        .long(option.name)
        .action(ArgAction::Set);
    match option.letter {
        Some(letter) => argument.short(letter),
        None => argument,
    }
}

/// Returns a command with these options as the parser takes it.
fn form<'a>(alloc: Global, options: &[Choice]) -> Result<Command<'a>, AllocError>
    ensures { IfOk result (λ command. app_of command ≡ form_of (choices_of options.now)) }
{
    let mut command = Command::new(alloc, "ipdl")
        .no_binary_name(true)
        .disable_help_flag(true)
        .disable_version_flag(true);
    for option in options {
        command = command.arg(argument_of(alloc, option))?;
    }
    let others = Arg::new(alloc, "words").action(ArgAction::Append);
    command.arg(others)
}

/// Parses the words of a command with these options. The fault is `Usage` if they are not the words of such a command.
pub fn read_options<'a>(
    alloc: Global,
    options: &[Choice],
    words: &'a [String],
) -> Result<ArgMatches<'a>, WordsFault>
    requires { IsTable (choices_of options.now) }
    ensures read { IfOk result (λ found. IsFound (choices_of options.entry.now) (map string_bytes words.entry.now) found) }
    ensures usage { IfErr result (λ fault. fault ≡ WordsFault.Usage → (said : List WordUse)
        → Reads (choices_of options.entry.now) (map string_bytes words.entry.now) said → ¬ EachOnce said) }
{
    let command = form(alloc, options)?;
    Ok(command.try_get_matches_from(words)?)
}

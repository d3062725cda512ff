//! Words that ask for help or for the version.
ghost use Rattle.std.specs.Prelude.{◌≡◌, ◌∷◌, [], None, IfSome, true, false, map, string_bytes};
ghost use Rattle.command_words.specs.declared.topic.CommandName.{CommandName as OneCommandName};
ghost use Rattle.command_words.specs.Topics.{AskNothing, Asks, IsHelpFlag, IsVersionWord, help_word, name_of};

/// The name of a command, by which help asks for it.
#[derive(Clone, Copy, Debug, PartialEq, Eq)]
pub enum CommandName {
    /// The command that compiles, which has no first word: `compile`.
    Compile,
    /// `run`
    Run,
    /// `frames`
    Frames,
    /// `gen`
    Gen,
    /// `feed`
    Feed,
    /// `relay`
    Relay,
    /// `audit`
    Audit,
    /// `waits`
    Waits,
    /// `chart`
    Chart,
    /// `explore`
    Explore,
}

/// What words ask about.
#[derive(Clone, Copy, Debug, PartialEq, Eq)]
pub enum Topic {
    /// What the program is, and which commands it has.
    Program,
    /// The words of a command.
    Command(CommandName),
    /// The version of the program.
    Version,
}

/// Returns the command that a word names, or `None`.
fn command_named(word: &str) -> Option<CommandName>
    ensures name { IfSome result (λ name. word.now ≡ name_of name) }
    ensures none { result ≡ None → (name : OneCommandName) → ¬ (word.now ≡ name_of name) }
{
    if word == "compile" {
        return Some(CommandName::Compile);
    }
    if word == "run" {
        return Some(CommandName::Run);
    }
    if word == "frames" {
        return Some(CommandName::Frames);
    }
    if word == "gen" {
        return Some(CommandName::Gen);
    }
    if word == "feed" {
        return Some(CommandName::Feed);
    }
    if word == "relay" {
        return Some(CommandName::Relay);
    }
    if word == "audit" {
        return Some(CommandName::Audit);
    }
    if word == "waits" {
        return Some(CommandName::Waits);
    }
    if word == "chart" {
        return Some(CommandName::Chart);
    }
    if word == "explore" {
        return Some(CommandName::Explore);
    }
    None
}

/// Returns whether a word is `--help` or `-h`.
fn is_help_flag(word: &str) -> bool
    ensures flag { result ≡ true → IsHelpFlag word.now }
    ensures none { result ≡ false → ¬ IsHelpFlag word.now }
{
    word == "--help" || word == "-h"
}

/// Returns whether a word is `version` or `--version`.
fn is_version_word(word: &str) -> bool
    ensures version { result ≡ true → IsVersionWord word.now }
    ensures none { result ≡ false → ¬ IsVersionWord word.now }
{
    word == "version" || word == "--version"
}

/// Returns what one word asks about, or `None`.
fn topic_of_one(word: &str) -> Option<Topic>
    ensures topic { IfSome result (Asks (word.now ∷ [])) }
    ensures none { result ≡ None → AskNothing (word.now ∷ []) }
{
    if word == "help" || is_help_flag(word) {
        return Some(Topic::Program);
    }
    if is_version_word(word) {
        return Some(Topic::Version);
    }
    None
}

/// Returns what two words ask about, or `None`.
fn topic_of_two(first: &str, second: &str) -> Option<Topic>
    ensures topic { IfSome result (Asks (first.now ∷ second.now ∷ [])) }
    ensures none { result ≡ None → AskNothing (first.now ∷ second.now ∷ []) }
{
    if first == "help" {
        return Some(Topic::Command(command_named(second)?));
    }
    if is_help_flag(second) {
        return Some(Topic::Command(command_named(first)?));
    }
    None
}

/// Returns what words ask about, or `None` if they do not ask (docs/command_line.md, "Help and the version"). The name of the
/// program is not among the words.
pub fn topic_of(words: &[String]) -> Option<Topic>
    ensures topic { IfSome result (Asks (map string_bytes words.now)) }
    ensures none { result ≡ None → AskNothing (map string_bytes words.now) }
{
    let (first, rest) = words.split_first()?;
    let Some((second, rest)) = rest.split_first() else {
        return topic_of_one(first.as_str());
    };
    if rest.is_empty() {
        topic_of_two(first.as_str(), second.as_str())
    } else {
        None
    }
}

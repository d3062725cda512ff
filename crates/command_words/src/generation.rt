//! The words of the command that runs a generated case.
ghost use Rattle.std.specs.Prelude.{◌≡◌, ◌∷◌, ℕ, IfErr, IfOk, map, option_map, string_bytes};
ghost use Rattle.command_words.specs.Command.{CommandOf};
ghost use Rattle.command_words.specs.Gen.{IsActors, IsNoGen, IsRounds, gen_word};

use crate::WordsFault;
use crate::command::Command;
use crate::numbers::count_of;
use crate::options::{Choice, read_options};
use std::alloc::Global;

/// The options of the command that runs a generated case.
const GEN_OPTIONS: [Choice; 1] = [Choice {
    name: "actors",
    letter: None,
}];

/// The most rounds.
const MOST_ROUNDS: u32 = 1_000;

/// The number of actors without `--actors`.
const USUAL_ACTORS: u32 = 4;

/// The most actors.
const MOST_ACTORS: u32 = 100;

/// Returns the number of actors, by the value of `--actors`. The fault is `Usage` if the value is not from 1 to 100.
fn actors_of(text: Option<&str>) -> Result<u32, WordsFault>
    ensures actors { IfOk result (IsActors (option_map (λ t. t.now) text.entry)) }
    ensures usage { IfErr result (λ fault. (actors : ℕ) → ¬ IsActors (option_map (λ t. t.now) text.entry) actors) }
{
    let Some(text) = text else {
        return Ok(USUAL_ACTORS);
    };
    match count_of(text, MOST_ACTORS) {
        Some(actors) => Ok(actors),
        None => Err(WordsFault::Usage),
    }
}

/// Reads the operand N, the number of rounds. The fault is `Usage` if the words are not this one, from 1 to 1,000.
fn rounds_of(words: &[&str]) -> Result<u32, WordsFault>
    ensures rounds { IfOk result (IsRounds (map (λ w. w.now) words.entry.now)) }
    ensures usage { IfErr result (λ fault. (rounds : ℕ) → ¬ IsRounds (map (λ w. w.now) words.entry.now) rounds) }
{
    let [text] = words else {
        return Err(WordsFault::Usage);
    };
    match count_of(text, MOST_ROUNDS) {
        Some(rounds) => Ok(rounds),
        None => Err(WordsFault::Usage),
    }
}

/// Reads the words after `gen`. The fault is `Usage` if they do not fit the command (docs/command_line.md).
pub fn generation(alloc: Global, words: &[String]) -> Result<Command, WordsFault>
    ensures command { IfOk result (λ command. CommandOf (gen_word ∷ map string_bytes words.now) command) }
    ensures usage { IfErr result (λ fault. fault ≡ WordsFault.Usage → IsNoGen (gen_word ∷ map string_bytes words.now)) }
{
    let found = read_options(alloc, &GEN_OPTIONS, words)?;
    let actors = actors_of(found.get_str("actors"))?;
    let rounds = rounds_of(found.get_strs("words").unwrap_or(&[]))?;
    Ok(Command::Gen { rounds, actors })
}

//! The words of the command that lists the ways of a script.
ghost use Rattle.std.specs.Prelude.{◌≡◌, ◌∷◌, ℕ, IfErr, IfOk, map, option_map, string_bytes};
ghost use Rattle.command_words.specs.Command.{CommandOf};
ghost use Rattle.command_words.specs.Explore.{IsMostWays, IsNoExplore, explore_word};

use crate::WordsFault;
use crate::command::{Command, Sources};
use crate::courses::limit_of;
use crate::folders::folders_of;
use crate::numbers::count_of;
use crate::options::{Choice, read_options};
use crate::run::{RunOperands, run_operands_of};
use crate::texts::copy_of;
use std::alloc::Global;

/// The options of the command that lists the ways of a script.
const EXPLORE_OPTIONS: [Choice; 4] = [
    Choice {
        name: "sync-msg-list",
        letter: Some('s'),
    },
    Choice {
        name: "path",
        letter: None,
    },
    Choice {
        name: "limit",
        letter: None,
    },
    Choice {
        name: "ways",
        letter: None,
    },
];

/// The most ways without `--ways`.
const USUAL_WAYS: u32 = 1_000;

/// The most ways that `--ways` may give.
const MOST_WAYS: u32 = 10_000;

/// How the command lists the ways of a script.
#[derive(Debug, Drop)]
pub struct ExploreOptions {
    /// The name of the script.
    pub script: String,
    /// The most events of a side, from 1 to 20,000.
    pub limit: u32,
    /// The most ways, from 1 to 10,000.
    pub ways: u32,
}

/// Returns the most ways, by the value of `--ways`. The fault is `Usage` if the value is not from 1 to 10,000.
fn most_ways_of(text: Option<&str>) -> Result<u32, WordsFault>
    ensures ways { IfOk result (IsMostWays (option_map (λ t. t.now) text.entry)) }
    ensures usage { IfErr result (λ fault. (ways : ℕ) → ¬ IsMostWays (option_map (λ t. t.now) text.entry) ways) }
{
    let Some(text) = text else {
        return Ok(USUAL_WAYS);
    };
    match count_of(text, MOST_WAYS) {
        Some(ways) => Ok(ways),
        None => Err(WordsFault::Usage),
    }
}

/// Reads the words after `explore`. The fault is `Usage` if they do not fit the command (docs/command_line.md).
pub fn explore(alloc: Global, words: &[String]) -> Result<Command, WordsFault>
    ensures command { IfOk result (λ command. CommandOf (explore_word ∷ map string_bytes words.now) command) }
    ensures usage { IfErr result (λ fault. fault ≡ WordsFault.Usage → IsNoExplore (explore_word ∷ map string_bytes words.now)) }
{
    let found = read_options(alloc, &EXPLORE_OPTIONS, words)?;
    let limit = limit_of(found.get_str("limit"))?;
    let ways = most_ways_of(found.get_str("ways"))?;
    let path = folders_of(alloc, found.get_str("path"))?;
    let operands = run_operands_of(alloc, found.get_strs("words").unwrap_or(&[]))?;
    let list = copy_of(alloc, found.get_str("sync-msg-list"))?;
    let RunOperands { script, file } = operands;
    Ok(Command::Explore(
        Sources { list, path, file },
        ExploreOptions {
            script,
            limit,
            ways,
        },
    ))
}

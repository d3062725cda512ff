//! The words of the command that runs a script over two queues.
ghost use Rattle.std.specs.Prelude.{◌≡◌, ◌∷◌, IfErr, IfOk, map, string_bytes};
ghost use Rattle.command_words.specs.Command.{CommandOf};
ghost use Rattle.command_words.specs.Relay.{IsNoRelay, relay_word};

use crate::WordsFault;
use crate::command::{Command, Sources};
use crate::courses::{death_of, limit_of};
use crate::folders::folders_of;
use crate::options::{Choice, read_options};
use crate::run::{RunOperands, run_operands_of};
use crate::texts::copy_of;
use schedules::Stop;
use std::alloc::Global;

/// The options of the command that runs a script over two queues.
const RELAY_OPTIONS: [Choice; 4] = [
    Choice {
        name: "sync-msg-list",
        letter: Some('s'),
    },
    Choice {
        name: "path",
        letter: None,
    },
    Choice {
        name: "limit",
        letter: None,
    },
    Choice {
        name: "die",
        letter: None,
    },
];

/// How the command runs a script over two queues.
#[derive(Debug, Drop)]
pub struct RelayOptions {
    /// The name of the script.
    pub script: String,
    /// The most events of a side, from 1 to 20,000.
    pub limit: u32,
    /// The death of an end, if one is given.
    pub death: Option<Stop>,
}

/// Reads the words after `relay`. The fault is `Usage` if they do not fit the command (docs/command_line.md).
pub fn relay(alloc: Global, words: &[String]) -> Result<Command, WordsFault>
    ensures command { IfOk result (λ command. CommandOf (relay_word ∷ map string_bytes words.now) command) }
    ensures usage { IfErr result (λ fault. fault ≡ WordsFault.Usage → IsNoRelay (relay_word ∷ map string_bytes words.now)) }
{
    let found = read_options(alloc, &RELAY_OPTIONS, words)?;
    let limit = limit_of(found.get_str("limit"))?;
    let death = death_of(found.get_str("die"))?;
    let path = folders_of(alloc, found.get_str("path"))?;
    let operands = run_operands_of(alloc, found.get_strs("words").unwrap_or(&[]))?;
    let list = copy_of(alloc, found.get_str("sync-msg-list"))?;
    let RunOperands { script, file } = operands;
    Ok(Command::Relay(
        Sources { list, path, file },
        RelayOptions {
            script,
            limit,
            death,
        },
    ))
}

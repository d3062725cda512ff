//! The words of the commands that run a script: one prints the history, and the other draws it.
ghost use Rattle.std.specs.Prelude.{◌≡◌, ◌∷◌, List, ℕ, IfErr, IfOk, map, option_map, string_bytes};
ghost use Rattle.command_words.specs.Command.{CommandOf, file_of, list_of, path_of, run_course};
ghost use Rattle.command_words.specs.Run.{AreRunOperands, IsNoChart, IsNoRun, SaysNoRun, SaysRun, chart_word, run_word};

use crate::WordsFault;
use crate::command::{Command, Sources};
use crate::courses::{death_of, limit_of, schedule_of};
use crate::folders::folders_of;
use crate::options::{Choice, read_options};
use crate::texts::copy_of;
use schedules::{Stop, Turn};
use std::alloc::Global;

/// The options of the commands that run a script.
const RUN_OPTIONS: [Choice; 5] = [
    Choice {
        name: "sync-msg-list",
        letter: Some('s'),
    },
    Choice {
        name: "path",
        letter: None,
    },
    Choice {
        name: "schedule",
        letter: None,
    },
    Choice {
        name: "limit",
        letter: None,
    },
    Choice {
        name: "die",
        letter: None,
    },
];

/// How the commands run a script.
#[derive(Debug, Drop)]
pub struct RunOptions {
    /// The name of the script.
    pub script: String,
    /// The turns of the sides, if they are given.
    pub schedule: Option<Vec<Turn>>,
    /// The most events of a side, from 1 to 20,000.
    pub limit: u32,
    /// The death of an end, if one is given.
    pub death: Option<Stop>,
}

/// The operands of the commands that run a script.
#[derive(Drop)]
pub struct RunOperands {
    /// The name of the script.
    pub script: String,
    /// The name of the file of the top protocol.
    pub file: String,
}

/// Reads the operands SCRIPT and FILE. The fault is `Usage` if the words are not these two.
pub fn run_operands_of(alloc: Global, words: &[&str]) -> Result<RunOperands, WordsFault>
    ensures operands { IfOk result (λ found. AreRunOperands (map (λ w. w.now) words.entry.now) (string_bytes found.script) (string_bytes found.file)) }
    ensures usage { IfErr result (λ fault. fault ≡ WordsFault.Usage → (script file : List ℕ)
        → ¬ AreRunOperands (map (λ w. w.now) words.entry.now) script file) }
{
    let [script, file] = words else {
        return Err(WordsFault::Usage);
    };
    if !file.ends_with(".ipdl") {
        return Err(WordsFault::Usage);
    }
    Ok(RunOperands {
        script: String::from_str(alloc, script)?,
        file: String::from_str(alloc, file)?,
    })
}

/// Reads the words after `run` or `chart`. The fault is `Usage` if they do not fit these commands (docs/command_line.md).
fn run_words(alloc: Global, words: &[String]) -> Result<(Sources, RunOptions), WordsFault>
    ensures says { IfOk result (λ said. SaysRun (map string_bytes words.now) (list_of said.0) (path_of said.0)
        (run_course said.1) (string_bytes said.1.script) (file_of said.0)) }
    ensures usage { IfErr result (λ fault. fault ≡ WordsFault.Usage → SaysNoRun (map string_bytes words.now)) }
{
    let found = read_options(alloc, &RUN_OPTIONS, words)?;
    let limit = limit_of(found.get_str("limit"))?;
    let death = death_of(found.get_str("die"))?;
    let path = folders_of(alloc, found.get_str("path"))?;
    let schedule = schedule_of(alloc, found.get_str("schedule"))?;
    let operands = run_operands_of(alloc, found.get_strs("words").unwrap_or(&[]))?;
    let list = copy_of(alloc, found.get_str("sync-msg-list"))?;
    let RunOperands { script, file } = operands;
    Ok((
        Sources { list, path, file },
        RunOptions {
            script,
            schedule,
            limit,
            death,
        },
    ))
}

/// Reads the words after `run`. The fault is `Usage` if they do not fit the command (docs/command_line.md).
pub fn run(alloc: Global, words: &[String]) -> Result<Command, WordsFault>
    ensures command { IfOk result (λ command. CommandOf (run_word ∷ map string_bytes words.now) command) }
    ensures usage { IfErr result (λ fault. fault ≡ WordsFault.Usage → IsNoRun (run_word ∷ map string_bytes words.now)) }
{
    let (sources, options) = run_words(alloc, words)?;
    Ok(Command::Run(sources, options))
}

/// Reads the words after `chart`. The fault is `Usage` if they do not fit the command (docs/command_line.md).
pub fn chart(alloc: Global, words: &[String]) -> Result<Command, WordsFault>
    ensures command { IfOk result (λ command. CommandOf (chart_word ∷ map string_bytes words.now) command) }
    ensures usage { IfErr result (λ fault. fault ≡ WordsFault.Usage → IsNoChart (chart_word ∷ map string_bytes words.now)) }
{
    let (sources, options) = run_words(alloc, words)?;
    Ok(Command::Chart(sources, options))
}

//! The words of the command that lists what may interrupt a wait.
ghost use Rattle.std.specs.Prelude.{◌≡◌, ◌∷◌, List, ℕ, IfErr, IfOk, map, string_bytes};
ghost use Rattle.command_words.specs.Command.{CommandOf};
ghost use Rattle.command_words.specs.Waits.{IsNoWaits, IsOperand, waits_word};

use crate::WordsFault;
use crate::command::{Command, Sources};
use crate::compile::COMPILE_OPTIONS;
use crate::folders::folders_of;
use crate::options::read_options;
use crate::texts::copy_of;
use std::alloc::Global;

/// Reads the operand FILE. The fault is `Usage` if the words are not this one.
fn operand_of(alloc: Global, words: &[&str]) -> Result<String, WordsFault>
    ensures operand { IfOk result (λ file. IsOperand (map (λ w. w.now) words.entry.now) (string_bytes file)) }
    ensures usage { IfErr result (λ fault. fault ≡ WordsFault.Usage → (file : List ℕ) → ¬ IsOperand (map (λ w. w.now) words.entry.now) file) }
{
    let [file] = words else {
        return Err(WordsFault::Usage);
    };
    if !file.ends_with(".ipdl") {
        return Err(WordsFault::Usage);
    }
    Ok(String::from_str(alloc, file)?)
}

/// Reads the words after `waits`. The fault is `Usage` if they do not fit the command (docs/command_line.md).
pub fn waits(alloc: Global, words: &[String]) -> Result<Command, WordsFault>
    ensures command { IfOk result (λ command. CommandOf (waits_word ∷ map string_bytes words.now) command) }
    ensures usage { IfErr result (λ fault. fault ≡ WordsFault.Usage → IsNoWaits (waits_word ∷ map string_bytes words.now)) }
{
    let found = read_options(alloc, &COMPILE_OPTIONS, words)?;
    let path = folders_of(alloc, found.get_str("path"))?;
    let file = operand_of(alloc, found.get_strs("words").unwrap_or(&[]))?;
    let list = copy_of(alloc, found.get_str("sync-msg-list"))?;
    Ok(Command::Waits(Sources { list, path, file }))
}

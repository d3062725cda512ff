//! The words of the command that prints frames.
ghost use Rattle.std.specs.Prelude.{◌≡◌, ◌↔◌, ◌∷◌, ◌==◌, Bool, List, ℕ, IfErr, IfOk, IsTrue, map, option_map, string_bytes};
ghost use Rattle.std.specs.List.{list_all};
ghost use Rattle.command_words.specs.Command.{CommandOf};
ghost use Rattle.command_words.specs.Frames.{AreOperands, IsConversion, IsNoFrames, IsTwo, frames_word};

use crate::WordsFault;
use crate::command::{Command, Sources};
use crate::folders::folders_of;
use crate::options::{Choice, read_options};
use crate::texts::copy_of;
use std::alloc::Global;

/// The options of the command that prints frames.
const FRAMES_OPTIONS: [Choice; 3] = [
    Choice {
        name: "sync-msg-list",
        letter: Some('s'),
    },
    Choice {
        name: "path",
        letter: None,
    },
    Choice {
        name: "to",
        letter: None,
    },
];

/// The frames that the command prints, and how.
#[derive(Debug, Drop)]
pub struct FramesOptions {
    /// The name of the file of frames.
    pub frames: String,
    /// Whether the frames are written anew, in the second layout.
    pub convert: bool,
}

/// The operands of the command.
#[derive(Drop)]
struct Operands {
    file: String,
    frames: String,
}

/// Returns whether all bytes are the digit 0.
fn are_zeros(digits: &[u8]) -> bool
    ensures { result ≡ list_all (λ b. b == 48) digits.now }
{
    digits.iter().all(|digit| *digit == b'0')
}

/// Returns whether a text is the number 2.
fn is_two(text: &str) -> bool
    ensures { IsTrue result ↔ IsTwo text.now }
{
    match text.as_bytes().strip_suffix(b"2") {
        Some(zeros) => are_zeros(zeros),
        None => false,
    }
}

/// Returns whether frames are converted, by the value of `--to`. The fault is `Usage` if the value is not the number 2.
fn conversion_of(to: Option<&str>) -> Result<bool, WordsFault>
    ensures convert { IfOk result (IsConversion (option_map (λ t. t.now) to.entry)) }
    ensures usage { IfErr result (λ fault. (convert : Bool) → ¬ IsConversion (option_map (λ t. t.now) to.entry) convert) }
{
    match to {
        Some(text) => {
            if is_two(text) {
                Ok(true)
            } else {
                Err(WordsFault::Usage)
            }
        }
        None => Ok(false),
    }
}

/// Reads the operands FILE and FRAMES. The fault is `Usage` if the words are not these two.
fn operands_of(alloc: Global, words: &[&str]) -> Result<Operands, WordsFault>
    ensures operands { IfOk result (λ found. AreOperands (map (λ w. w.now) words.entry.now) (string_bytes found.file) (string_bytes found.frames)) }
    ensures usage { IfErr result (λ fault. fault ≡ WordsFault.Usage → (file frames : List ℕ) → ¬ AreOperands (map (λ w. w.now) words.entry.now) file frames) }
{
    let [file, frames] = words else {
        return Err(WordsFault::Usage);
    };
    if !file.ends_with(".ipdl") {
        return Err(WordsFault::Usage);
    }
    Ok(Operands {
        file: String::from_str(alloc, file)?,
        frames: String::from_str(alloc, frames)?,
    })
}

/// Reads the words after `frames`. The fault is `Usage` if they do not fit the command (docs/command_line.md).
pub fn frames(alloc: Global, words: &[String]) -> Result<Command, WordsFault>
    ensures command { IfOk result (λ command. CommandOf (frames_word ∷ map string_bytes words.now) command) }
    ensures usage { IfErr result (λ fault. fault ≡ WordsFault.Usage → IsNoFrames (frames_word ∷ map string_bytes words.now)) }
{
    let found = read_options(alloc, &FRAMES_OPTIONS, words)?;
    let convert = conversion_of(found.get_str("to"))?;
    let path = folders_of(alloc, found.get_str("path"))?;
    let operands = operands_of(alloc, found.get_strs("words").unwrap_or(&[]))?;
    let list = copy_of(alloc, found.get_str("sync-msg-list"))?;
    let Operands { file, frames } = operands;
    Ok(Command::Frames(
        Sources { list, path, file },
        FramesOptions { frames, convert },
    ))
}

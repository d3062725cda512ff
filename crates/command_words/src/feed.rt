//! The words of the command that runs one end on a file of bytes.
ghost use Rattle.std.specs.Prelude.{◌≡◌, ◌∷◌, None, IfErr, IfOk, IfSome, map, option_map, string_bytes};
ghost use Rattle.ipdl_base.specs.declared.kinds.Side.{Side as EndSide};
ghost use Rattle.command_words.specs.Command.{CommandOf};
ghost use Rattle.command_words.specs.Feed.{IsNoFeed, IsSide, feed_word};
ghost use Rattle.command_words.specs.RunOptions.{word_of};

use crate::WordsFault;
use crate::command::{Command, Sources};
use crate::courses::limit_of;
use crate::folders::folders_of;
use crate::operands::{ScriptOperands, script_operands_of};
use crate::options::{Choice, read_options};
use crate::texts::copy_of;
use ipdl_base::Side;
use std::alloc::Global;

/// The options of the command that runs one end on a file of bytes.
const FEED_OPTIONS: [Choice; 4] = [
    Choice {
        name: "sync-msg-list",
        letter: Some('s'),
    },
    Choice {
        name: "path",
        letter: None,
    },
    Choice {
        name: "limit",
        letter: None,
    },
    Choice {
        name: "side",
        letter: None,
    },
];

/// How the command runs one end on a file of bytes.
#[derive(Debug, Drop)]
pub struct FeedOptions {
    /// The name of the script.
    pub script: String,
    /// The name of the file of frames.
    pub frames: String,
    /// The side of the end.
    pub side: Side,
    /// The most events of the end, from 1 to 20,000.
    pub limit: u32,
}

/// Returns the side that a word names, or `None`.
fn side_in(text: &str) -> Option<Side>
    ensures side { IfSome result (λ side. text.now ≡ word_of side) }
    ensures none { result ≡ None → (side : EndSide) → ¬ (text.now ≡ word_of side) }
{
    if text == "parent" {
        return Some(Side::Parent);
    }
    if text == "child" {
        return Some(Side::Child);
    }
    None
}

/// Returns the side of the end, by the value of `--side`. The fault is `Usage` if no side is given.
fn side_of(text: Option<&str>) -> Result<Side, WordsFault>
    ensures side { IfOk result (IsSide (option_map (λ t. t.now) text.entry)) }
    ensures usage { IfErr result (λ fault. (side : EndSide) → ¬ IsSide (option_map (λ t. t.now) text.entry) side) }
{
    let Some(text) = text else {
        return Err(WordsFault::Usage);
    };
    match side_in(text) {
        Some(side) => Ok(side),
        None => Err(WordsFault::Usage),
    }
}

/// Reads the words after `feed`. The fault is `Usage` if they do not fit the command (docs/command_line.md).
pub fn feed(alloc: Global, words: &[String]) -> Result<Command, WordsFault>
    ensures command { IfOk result (λ command. CommandOf (feed_word ∷ map string_bytes words.now) command) }
    ensures usage { IfErr result (λ fault. fault ≡ WordsFault.Usage → IsNoFeed (feed_word ∷ map string_bytes words.now)) }
{
    let found = read_options(alloc, &FEED_OPTIONS, words)?;
    let limit = limit_of(found.get_str("limit"))?;
    let side = side_of(found.get_str("side"))?;
    let path = folders_of(alloc, found.get_str("path"))?;
    let operands = script_operands_of(alloc, found.get_strs("words").unwrap_or(&[]))?;
    let list = copy_of(alloc, found.get_str("sync-msg-list"))?;
    let ScriptOperands {
        script,
        file,
        input,
    } = operands;
    Ok(Command::Feed(
        Sources { list, path, file },
        FeedOptions {
            script,
            frames: input,
            side,
            limit,
        },
    ))
}

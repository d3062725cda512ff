//! The words of the command that compiles files.
ghost use Rattle.std.specs.Prelude.{◌≡◌, IfErr, IfOk, map, string_bytes};
ghost use Rattle.command_words.specs.Command.{CommandOf};
ghost use Rattle.command_words.specs.Compile.{IsForCompile, IsNoCompile};

use crate::WordsFault;
use crate::command::Command;
use crate::files::files_of;
use crate::folders::folders_of;
use crate::options::{Choice, read_options};
use crate::texts::copy_of;
use std::alloc::Global;

/// The options of the commands that compile files, or a file.
pub const COMPILE_OPTIONS: [Choice; 2] = [
    Choice {
        name: "sync-msg-list",
        letter: Some('s'),
    },
    Choice {
        name: "path",
        letter: None,
    },
];

/// Reads the words as the command that compiles files. The fault is `Usage` if they do not fit it (docs/command_line.md).
pub fn compile(alloc: Global, words: &[String]) -> Result<Command, WordsFault>
    requires { IsForCompile (map string_bytes words.now) }
    ensures command { IfOk result (λ command. CommandOf (map string_bytes words.now) command) }
    ensures usage { IfErr result (λ fault. fault ≡ WordsFault.Usage → IsNoCompile (map string_bytes words.now)) }
{
    let found = read_options(alloc, &COMPILE_OPTIONS, words)?;
    let path = folders_of(alloc, found.get_str("path"))?;
    let files = files_of(alloc, found.get_strs("words").unwrap_or(&[]))?;
    let list = copy_of(alloc, found.get_str("sync-msg-list"))?;
    Ok(Command::Compile { list, path, files })
}

//! The words of the command that audits a text.
ghost use Rattle.std.specs.Prelude.{◌≡◌, ◌∷◌, IfErr, IfOk, map, string_bytes};
ghost use Rattle.command_words.specs.Command.{CommandOf};
ghost use Rattle.command_words.specs.Audit.{IsNoAudit, audit_word};

use crate::WordsFault;
use crate::command::{Command, Sources};
use crate::courses::limit_of;
use crate::folders::folders_of;
use crate::operands::{ScriptOperands, script_operands_of};
use crate::options::{Choice, read_options};
use crate::texts::copy_of;
use std::alloc::Global;

/// The options of the command that audits a text.
const AUDIT_OPTIONS: [Choice; 3] = [
    Choice {
        name: "sync-msg-list",
        letter: Some('s'),
    },
    Choice {
        name: "path",
        letter: None,
    },
    Choice {
        name: "limit",
        letter: None,
    },
];

/// The text that the command audits, and how.
#[derive(Debug, Drop)]
pub struct AuditOptions {
    /// The name of the script.
    pub script: String,
    /// The name of the file of the text.
    pub transcript: String,
    /// The most events of a side, from 1 to 20,000.
    pub limit: u32,
}

/// Reads the words after `audit`. The fault is `Usage` if they do not fit the command (docs/command_line.md).
pub fn audit(alloc: Global, words: &[String]) -> Result<Command, WordsFault>
    ensures command { IfOk result (λ command. CommandOf (audit_word ∷ map string_bytes words.now) command) }
    ensures usage { IfErr result (λ fault. fault ≡ WordsFault.Usage → IsNoAudit (audit_word ∷ map string_bytes words.now)) }
{
    let found = read_options(alloc, &AUDIT_OPTIONS, words)?;
    let limit = limit_of(found.get_str("limit"))?;
    let path = folders_of(alloc, found.get_str("path"))?;
    let operands = script_operands_of(alloc, found.get_strs("words").unwrap_or(&[]))?;
    let list = copy_of(alloc, found.get_str("sync-msg-list"))?;
    let ScriptOperands {
        script,
        file,
        input,
    } = operands;
    Ok(Command::Audit(
        Sources { list, path, file },
        AuditOptions {
            script,
            transcript: input,
            limit,
        },
    ))
}

//! The operands of the commands that read an input file.
ghost use Rattle.std.specs.Prelude.{◌≡◌, List, ℕ, IfErr, IfOk, map, string_bytes};
ghost use Rattle.command_words.specs.Operands.{AreScriptOperands};

use crate::WordsFault;
use std::alloc::Global;

/// The operands of a command that reads an input file by a script and a program.
#[derive(Drop)]
pub struct ScriptOperands {
    /// The name of the script.
    pub script: String,
    /// The name of the file of the top protocol.
    pub file: String,
    /// The name of the input file.
    pub input: String,
}

/// Reads the operands SCRIPT, FILE and the input file. The fault is `Usage` if the words are not these three.
pub fn script_operands_of(alloc: Global, words: &[&str]) -> Result<ScriptOperands, WordsFault>
    ensures operands { IfOk result (λ found. AreScriptOperands (map (λ w. w.now) words.entry.now)
        (string_bytes found.script) (string_bytes found.file) (string_bytes found.input)) }
    ensures usage { IfErr result (λ fault. fault ≡ WordsFault.Usage → (script file input : List ℕ)
        → ¬ AreScriptOperands (map (λ w. w.now) words.entry.now) script file input) }
{
    let [script, file, input] = words else {
        return Err(WordsFault::Usage);
    };
    if !file.ends_with(".ipdl") {
        return Err(WordsFault::Usage);
    }
    Ok(ScriptOperands {
        script: String::from_str(alloc, script)?,
        file: String::from_str(alloc, file)?,
        input: String::from_str(alloc, input)?,
    })
}

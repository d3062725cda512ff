//! The script of a command, and the rules that it breaks.
ghost use Rattle.std.specs.Prelude.{◌≡◌, ◌≤◌, ◌<◌, [], ◌∷◌, ℕ, IfOk, List, Option, length};
ghost use Rattle.ipdl_base.specs.Sound.{IsSound};
ghost use Rattle.ipdl_top.specs.ScriptSteps.{IsHeldChecked, IsScriptChecked, IsTextChecked, IsUnreadable, IsValidChecked};
ghost use Rattle.ipdl_top.specs.Steps.{HasTopOf, IsHeld, IsSmall};

use crate::waits::top_of;
use handler_script::{Script, ScriptFault, read_script};
use ipdl_base::{
    FileBytes, Finding, Findings, Items, MOST_BYTES, Name, Place, Report, Rule, Schema,
};
use std::alloc::{AllocError, Global};

/// The place of a script as a whole.
const WHOLE_SCRIPT: Place = Place {
    file: 0,
    line: 0,
    column: 0,
};

/// The script of a command, as it was found.
#[derive(Drop)]
pub struct ScriptFile<'c> {
    /// The name of the file of the top protocol.
    pub file: &'c str,
    /// The name of the script.
    pub name: &'c str,
    /// What was found of the script.
    pub found: &'c FileBytes,
}

/// What was found of a script.
#[derive(Drop)]
pub enum ScriptCheck {
    /// It breaks rules. The report has them.
    Broken(Report),
    /// It breaks no rule.
    Valid(Script),
}

/// Returns that a script of this name breaks these rules. Fails only if memory runs out.
fn broken_script(alloc: Global, name: &str, findings: Findings) -> Result<ScriptCheck, AllocError>
    ensures { IfOk result (λ checked. checked ≡ ScriptCheck.Broken (record { findings = findings; names = name.now ∷ [] })) }
{
    let mut names = Vec::new(alloc);
    names.push(Name::from_slice(alloc, name.as_bytes())?)?;
    Ok(ScriptCheck::Broken(Report {
        findings,
        names: Items::from_vec(names),
    }))
}

/// Returns that a script of this name is absent, or has more bytes than are read. Fails only if memory runs out.
fn unreadable_script(alloc: Global, name: &str) -> Result<ScriptCheck, AllocError>
    ensures { IfOk result (IsUnreadable name.now) }
{
    let finding = Finding {
        place: WHOLE_SCRIPT,
        rule: Rule::UNREADABLE_SCRIPT,
    };
    let found = Vec::from_slice(alloc, &[finding])?;
    broken_script(alloc, name, Items::from_vec(found))
}

/// Checks the text of a script.
fn text_checked(
    alloc: Global,
    schema: &Schema,
    top: u32,
    name: &str,
    text: &[u8],
) -> Result<ScriptCheck, AllocError>
    requires sound { IsSound schema.now }
    requires top { top < length schema.now.protocols }
    requires small { length text.now ≤ MOST_BYTES }
    ensures found { IfOk result (IsTextChecked name.now text.now schema.now top) }
    ensures valid { IfOk result (IsValidChecked schema.now) }
{
    match read_script(alloc, text, schema, top) {
        Ok(script) => Ok(ScriptCheck::Valid(script)),
        Err(ScriptFault::Broken(findings)) => broken_script(alloc, name, findings),
        Err(ScriptFault::NoMemory) => Err(AllocError),
    }
}

/// Checks a script by what was found of its file.
fn held_checked(
    alloc: Global,
    schema: &Schema,
    top: u32,
    name: &str,
    held: &FileBytes,
) -> Result<ScriptCheck, AllocError>
    requires small { IsSmall held.now }
    requires sound { IsSound schema.now }
    requires top { top < length schema.now.protocols }
    ensures found { IfOk result (λ checked. (text : Option (List ℕ)) → IsHeld text held.now → IsHeldChecked name.now text schema.now top checked) }
    ensures valid { IfOk result (IsValidChecked schema.now) }
{
    match held {
        FileBytes::Absent | FileBytes::Larger => unreadable_script(alloc, name),
        FileBytes::Bytes(bytes) => text_checked(alloc, schema, top, name, bytes.as_slice()),
    }
}

/// Checks a script under the schema of a program: the script of its text, or the report on the rules that it breaks. Fails only
/// if memory runs out.
pub fn script_checked(
    alloc: Global,
    schema: &Schema,
    script: &ScriptFile<'_>,
) -> Result<ScriptCheck, AllocError>
    requires small { IsSmall script.now.found.now }
    requires sound { IsSound schema.now }
    requires top { HasTopOf script.now.file.now schema.now }
    ensures found { IfOk result (λ checked. (text : Option (List ℕ)) → IsHeld text script.now.found.now
        → IsScriptChecked script.now.name.now text script.now.file.now schema.now checked) }
    ensures valid { IfOk result (IsValidChecked schema.now) }
{
    let Some(top) = top_of(schema, script.file) else {
        unreachable!();
    };
    held_checked(alloc, schema, top, script.name, script.found)
}

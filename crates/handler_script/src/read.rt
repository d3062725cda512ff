//! Reads a script from text.

ghost use Rattle.std.specs.Prelude.{◌≡◌, ◌<◌, ◌≤◌, length, IfOk, IfErr};
ghost use Rattle.ipdl_base.specs.declared.files.TheConstants.{MOST_BYTES};
ghost use Rattle.ipdl_base.specs.Sound.{IsSound};
ghost use Rattle.handler_script.specs.Faults.{IsFault};
ghost use Rattle.handler_script.specs.ScriptOf.{IsScriptOf};
ghost use Rattle.handler_script.specs.Valid.{IsValid};

use crate::building::blocks_of;
use crate::report::report_of;
use crate::script::{Script, ScriptFault};
use crate::table::MessageTable;
use ipdl_base::Schema;
use script_reader::read_lines;
use std::alloc::Global;

/// Reads the script of a text, for a schema and the number of its top protocol (docs/scripts.md). If
/// the text breaks rules, the error is `Broken` with their findings in order. Takes time in proportion
/// to the text and the schema, except for sorting the findings.
pub fn read_script(
    alloc: Global,
    text: &[u8],
    schema: &Schema,
    top: u32,
) -> Result<Script, ScriptFault>
    requires small { length text.now ≤ MOST_BYTES }
    requires sound { IsSound schema.now }
    requires protocol { top < length schema.now.protocols }
    ensures script { IfOk result (IsScriptOf text.now schema.now top) }
    ensures valid { IfOk result (IsValid schema.now) }
    ensures fault { IfErr result (IsFault text.now schema.now top) }
{
    let readings = read_lines(alloc, text)?;
    let messages = MessageTable::new(alloc, schema)?;
    let findings = report_of(alloc, schema, &messages, top, readings.as_slice())?;
    if !findings.as_slice().is_empty() {
        return Err(ScriptFault::Broken(findings));
    }
    let blocks = blocks_of(alloc, schema, &messages, readings.as_slice())?;
    Ok(Script { top, blocks })
}

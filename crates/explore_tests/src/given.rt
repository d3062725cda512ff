//! Schemas and scripts of the tests.

ghost use Rattle.std.specs.Prelude.{IfOk};
ghost use Rattle.ipdl_base.specs.Sound.{IsSound};
ghost use Rattle.handler_script.specs.Valid.{IsValid};

use handler_script::{Script, read_script};
use ipdl_base::{Schema, short_name};
use std::alloc::Global;
use std::test::Fail;
use worked_runs::{RUNS, Row, protocol_files, row_named};

/// Returns the schema of the worked protocol of a file.
pub fn schema_of(alloc: Global, word: &str) -> Result<Schema, Fail>
    ensures { IfOk result IsSound }
{
    schema_of_text::schema_of(alloc, protocol_files(alloc)?, word)
}

/// Returns the number of the protocol with this short name.
fn number_of(schema: &Schema, name: &str) -> Result<u32, Fail> {
    let mut number = 0u32;
    for protocol in schema.protocols.as_slice() {
        if short_name(protocol.name.as_slice()) == name.as_bytes() {
            return Ok(number);
        }
        number = number.wrapping_add(1);
    }
    Err("no such protocol".into())
}

/// Returns the script of a text. Its top is the protocol of a file.
pub fn script_of(alloc: Global, schema: &Schema, file: &str, text: &str) -> Result<Script, Fail>
    requires sound { IsSound schema.now }
    ensures { IfOk result (IsValid schema.now) }
{
    let (name, _) = file.split_once(".").ok_or("a file without its ending")?;
    let top = number_of(schema, name)?;
    if top as usize >= schema.protocols.len() || text.len() > 1_048_576 {
        return Err("no top, or a text that is too large".into());
    }
    Ok(
        read_script(alloc, text.as_bytes(), schema, top)
            .ok()
            .ok_or("a script that breaks a rule")?,
    )
}

/// Returns the worked run of this name.
pub fn worked(name: &str) -> Result<Row<'static>, Fail> {
    Ok(row_named(RUNS, name).ok_or("no such worked run")?)
}

/// Returns the limit of a worked run.
pub fn limit_of(row: Row<'_>) -> Result<u32, Fail> {
    let (_, rest) = row.course.split_once(" ").ok_or("a word alone")?;
    let (limit, _) = rest.split_once(" ").ok_or("a limit without a death")?;
    Ok(limit.parse::<u32>()?)
}

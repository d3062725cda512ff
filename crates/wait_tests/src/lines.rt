//! The lines of a report, for comparison with a row.
ghost use Rattle.ipdl_base.specs.Sound.{IsSound};

use ipdl_base::{Schema, Side};
use memory_files::MemoryFiles;
use schema_of_text::schema_of;
use std::alloc::Global;
use std::test::Fail;
use wait_report::{Pair, pairs};

/// Reads the files from a text, each after a line with `@` and its name.
fn files_of(alloc: Global, text: &str) -> Result<MemoryFiles, Fail> {
    let mut files = Vec::new(alloc);
    for part in text.split("@ ") {
        if let Some((name, body)) = part.split_once("\n") {
            let name = String::from_str(alloc, name)?;
            files.push((name, Vec::from_slice(alloc, body.as_bytes())?))?;
        }
    }
    Ok(MemoryFiles::new(files, Vec::new(alloc)))
}

/// Returns the number of the protocol with this name.
fn number_of(schema: &Schema, name: &[u8]) -> Result<u32, Fail> {
    let mut number: u32 = 0;
    for protocol in schema.protocols.as_slice() {
        if protocol.name.as_slice() == name {
            return Ok(number);
        }
        number = number.wrapping_add(1);
    }
    Err("no such protocol".into())
}

/// Returns the name of a message, with the name of its protocol.
fn name_of(alloc: Global, schema: &Schema, number: u32) -> Result<String, Fail>
    requires { IsSound schema.now }
{
    let (Some(protocol), Some(message)) = (schema.protocol(number / 65536), schema.message(number))
    else {
        return Err("no such message".into());
    };
    let mut name = String::new(alloc);
    name.push_str(std::str::from_utf8(protocol.name.as_slice())?)?;
    name.push_str(".")?;
    name.push_str(std::str::from_utf8(message.name.as_slice())?)?;
    Ok(name)
}

/// Returns the line of a pair.
fn line_of(alloc: Global, schema: &Schema, pair: Pair) -> Result<String, Fail>
    requires { IsSound schema.now }
{
    let side = match pair.side {
        Side::Parent => "parent",
        Side::Child => "child",
    };
    let waits = name_of(alloc, schema, pair.waits)?;
    let takes = name_of(alloc, schema, pair.takes)?;
    Ok(format!(in alloc; "{side} waits {waits} takes {takes}\n")?)
}

/// Returns the lines of the report on the program in a text, where this protocol, in the file of its name, is
/// the top.
pub fn report(alloc: Global, text: &str, top: &str) -> Result<String, Fail> {
    let file = format!(in alloc; "{top}.ipdl")?;
    let schema = schema_of(alloc, files_of(alloc, text)?, file.as_str())?;
    let number = number_of(&schema, top.as_bytes())?;
    if number as usize >= schema.protocols.len() {
        return Err("no such protocol".into());
    }
    let found = pairs(alloc, &schema, number)?;
    let mut lines = String::new(alloc);
    for pair in found.as_slice() {
        lines.push_str(line_of(alloc, &schema, *pair)?.as_str())?;
    }
    Ok(lines)
}

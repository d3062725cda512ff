//! The texts of explorations.

ghost use Rattle.handler_script.specs.Valid.{IsValid};
ghost use Rattle.ipdl_base.specs.Sound.{IsSound};

use super::given::{schema_of, script_of, worked};
use super::rows::EXPLORATIONS;
use explorations::{Exploration, exploration_text};
use explorer::explore;
use handler_script::Script;
use ipdl_base::Schema;
use std::alloc::Global;
use std::test::Fail;
use worked_runs::Row;

/// Returns the exploration of a script.
pub fn explored(
    alloc: Global,
    schema: &Schema,
    script: &Script,
    limit: u32,
    most: u32,
) -> Result<Exploration, Fail>
    requires sound { IsSound schema.now }
    requires valid { IsValid schema.now script.now }
{
    if limit > 20_000 {
        return Err("a limit that is too large".into());
    }
    Ok(explore(alloc, schema, script, limit, most)?)
}

/// Returns the text of the exploration of a worked script, by the schema of its protocol.
fn text_by(
    alloc: Global,
    schema: &Schema,
    row: Row<'_>,
    limit: u32,
    most: u32,
) -> Result<Vec<u8>, Fail>
    requires { IsSound schema.now }
{
    let script = script_of(alloc, schema, row.file, row.script)?;
    let found = explored(alloc, schema, &script, limit, most)?;
    Ok(exploration_text(alloc, &found)?)
}

/// Returns the text of the exploration of a worked script.
pub fn text_of(alloc: Global, name: &str, limit: u32, most: u32) -> Result<Vec<u8>, Fail> {
    let row = worked(name)?;
    let schema = schema_of(alloc, row.file)?;
    text_by(alloc, &schema, row, limit, most)
}

/// Notes a row whose exploration has another text.
fn check(alloc: Global, row: &str, wrong: &mut String) -> Result<(), Fail> {
    let (head, wanted) = row.split_once("\n").ok_or("a row of no line")?;
    let (name, numbers) = head.split_once(" ").ok_or("a row without its limit")?;
    let (limit, most) = numbers.split_once(" ").ok_or("a row without its ways")?;
    let text = text_of(alloc, name, limit.parse::<u32>()?, most.parse::<u32>()?)?;
    if text.as_slice() != wanted.as_bytes() {
        let text = str::from_utf8(text.as_slice())?;
        writeln!(wrong, "{head}: {text}")?;
    }
    Ok(())
}

/// Returns the rows whose explorations have other texts, and how many rows there are.
fn checked(alloc: Global) -> Result<String, Fail> {
    let mut wrong = String::new(alloc);
    let mut count = 0u32;
    for row in EXPLORATIONS.split("====\n") {
        check(alloc, row, &mut wrong)?;
        count = count.wrapping_add(1);
    }
    write!(wrong, "{count}")?;
    Ok(wrong)
}

#[test]
fn texts(rt: HostRuntime) -> Result<(), Fail> {
    assert_eq!(rt; checked(rt.alloc())?.as_str(), "24");
    Ok(())
}

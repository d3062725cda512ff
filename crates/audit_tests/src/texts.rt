//! Audits of the rows, and an audit as text.

ghost use Rattle.handler_script.specs.Valid.{IsValid};
ghost use Rattle.ipdl_base.specs.Sound.{IsSound};
ghost use Rattle.std.specs.Prelude.{◌≤◌, length};

use super::given::{schema_of, script_of};
use handler_script::Script;
use ipdl_base::Schema;
use ipdl_top::{Audit, audit_text};
use std::alloc::Global;
use std::test::Fail;
use worked_runs::{AUDITS, RACE_SCRIPT};

/// Returns an audit as text.
fn shown(alloc: Global, found: Audit) -> Result<String, Fail> {
    Ok(match found {
        Audit::Legal(events) => format!(in alloc; "legal {events}")?,
        Audit::Early(line) => format!(in alloc; "early {line}")?,
        Audit::NoStep(line) => format!(in alloc; "no step {line}")?,
    })
}

/// Returns the audit of a text.
pub fn found(
    alloc: Global,
    schema: &Schema,
    script: &Script,
    limit: u32,
    text: &[u8],
) -> Result<Audit, Fail>
    requires sound { IsSound schema.now }
    requires valid { IsValid schema.now script.now }
{
    if limit > 20_000 || text.len() > 16_777_216 {
        return Err("a limit or a text that is too large".into());
    }
    Ok(audit_text(alloc, schema, script, limit, text)?)
}

/// Returns the audit of a text, as text.
pub fn said(
    alloc: Global,
    schema: &Schema,
    script: &Script,
    limit: u32,
    text: &[u8],
) -> Result<String, Fail>
    requires sound { IsSound schema.now }
    requires valid { IsValid schema.now script.now }
{
    shown(alloc, found(alloc, schema, script, limit, text)?)
}

/// Notes a row for which the audit reports something else.
fn check(
    alloc: Global,
    schema: &Schema,
    script: &Script,
    row: &str,
    wrong: &mut String,
) -> Result<(), Fail>
    requires sound { IsSound schema.now }
    requires valid { IsValid schema.now script.now }
{
    let (head, text) = row.split_once("\n").ok_or("a row of no line")?;
    let (name, head) = head.split_once(" ").ok_or("a row without its limit")?;
    let (limit, wanted) = head.split_once(" ").ok_or("a row that wants nothing")?;
    let said = said(
        alloc,
        schema,
        script,
        limit.parse::<u32>()?,
        text.as_bytes(),
    )?;
    if said.as_str() != wanted {
        writeln!(wrong, "{name}: {said}")?;
    }
    Ok(())
}

/// Returns the rows for which the audit reports something else, and how many rows there are.
fn checked(alloc: Global, schema: &Schema, script: &Script) -> Result<String, Fail>
    requires sound { IsSound schema.now }
    requires valid { IsValid schema.now script.now }
{
    let mut wrong = String::new(alloc);
    let mut count = 0u32;
    for row in AUDITS.split("====\n") {
        check(alloc, schema, script, row, &mut wrong)?;
        count = count.wrapping_add(1);
    }
    write!(wrong, "{count}")?;
    Ok(wrong)
}

/// Returns the rows of the table for which the audit is wrong, with a schema.
fn all_rows(alloc: Global, schema: &Schema) -> Result<String, Fail>
    requires { IsSound schema.now }
{
    let script = script_of(alloc, schema, "PW.ipdl", RACE_SCRIPT)?;
    checked(alloc, schema, &script)
}

#[test]
fn audited_rows(rt: HostRuntime) -> Result<(), Fail> {
    let schema = schema_of(rt.alloc(), "PW.ipdl")?;
    assert_eq!(rt; all_rows(rt.alloc(), &schema)?.as_str(), "30");
    Ok(())
}

//! That texts which an audit calls legal are ways.

ghost use Rattle.handler_script.specs.Valid.{IsValid};
ghost use Rattle.ipdl_base.specs.Sound.{IsSound};

use super::given::{limit_of, schema_of, script_of, worked};
use super::printed::count_alike;
use super::texts::explored;
use explorations::Exploration;
use handler_script::Script;
use ipdl_base::Schema;
use std::alloc::Global;
use std::test::Fail;
use worked_runs::{AUDITS, RACE_SCRIPT, Row, SWAPS, events_of, swapped};

/// The worked runs with a legal text in the table of swaps, and with at most a thousand ways.
const SWAPPED: &str = "both-call-at-once
delete-of-a-tree
drops
four-nested-calls
kept-resolver
lazy-outbox
limit-spent
overtaken-constructor
refused-closed
reply-under-a-handler
two-tells";

/// Returns how many ways of a script have the lines of each side of a text, and its ending.
fn ways_alike(
    alloc: Global,
    schema: &Schema,
    script: &Script,
    limit: u32,
    text: &str,
) -> Result<u32, Fail>
    requires sound { IsSound schema.now }
    requires valid { IsValid schema.now script.now }
{
    let found = explored(alloc, schema, script, limit, 1_000)?;
    count_alike(alloc, schema, script, limit, &found, text)
}

/// Returns this number for the text of a script, by the schema of its protocol.
fn alike_by(
    alloc: Global,
    schema: &Schema,
    file: &str,
    script: &str,
    limit: u32,
    text: &str,
) -> Result<u32, Fail>
    requires { IsSound schema.now }
{
    let script = script_of(alloc, schema, file, script)?;
    ways_alike(alloc, schema, &script, limit, text)
}

/// Returns this number for the text of a script over a worked protocol.
fn alike(alloc: Global, file: &str, script: &str, limit: u32, text: &str) -> Result<u32, Fail> {
    let schema = schema_of(alloc, file)?;
    alike_by(alloc, &schema, file, script, limit, text)
}

/// Notes a legal text of the table of audits that is not exactly one way. Returns 1 for a legal text, and 0 for another.
fn check_audit(alloc: Global, row: &str, wrong: &mut String) -> Result<u32, Fail> {
    let (head, text) = row.split_once("\n").ok_or("a row of no line")?;
    let (name, rest) = head.split_once(" ").ok_or("a row without its limit")?;
    let (limit, said) = rest.split_once(" ").ok_or("a row that wants nothing")?;
    if !said.starts_with("legal ") {
        return Ok(0);
    }
    let count = alike(alloc, "PW.ipdl", RACE_SCRIPT, limit.parse::<u32>()?, text)?;
    if count != 1 {
        writeln!(wrong, "{name}: {count}")?;
    }
    Ok(1)
}

/// Returns the number of the first swapped event, counted from 1, if a line of the table of swaps says that a text of this
/// run is legal.
fn legal_swap(line: &str, name: &str) -> Result<Option<u32>, Fail> {
    let (run, rest) = line.split_once(" ").ok_or("a row without its number")?;
    let (number, said) = rest.split_once(" ").ok_or("a row that wants nothing")?;
    if run == name && said.starts_with("legal ") {
        Ok(Some(number.parse::<u32>()?))
    } else {
        Ok(None)
    }
}

/// Notes a legal text of the table of swaps that is not exactly one way. The first of the two events has this number.
fn check_swap(
    alloc: Global,
    schema: &Schema,
    script: &Script,
    found: &Exploration,
    row: Row<'_>,
    number: u32,
    wrong: &mut String,
) -> Result<(), Fail>
    requires sound { IsSound schema.now }
    requires valid { IsValid schema.now script.now }
{
    let place = number.saturating_sub(1) as usize;
    let events = events_of(alloc, row.printed)?;
    let text = swapped(alloc, events.as_slice(), place)?;
    let count = count_alike(alloc, schema, script, limit_of(row)?, found, text.as_str())?;
    if count != 1 {
        writeln!(wrong, "{} {number}: {count}", row.name)?;
    }
    Ok(())
}

/// Notes the wrong texts of a worked run in the table of swaps, and returns how many legal texts it has there.
fn check_swaps_of(
    alloc: Global,
    schema: &Schema,
    script: &Script,
    row: Row<'_>,
    wrong: &mut String,
) -> Result<u32, Fail>
    requires sound { IsSound schema.now }
    requires valid { IsValid schema.now script.now }
{
    let found = explored(alloc, schema, script, limit_of(row)?, 1_000)?;
    let mut count = 0u32;
    for line in SWAPS.lines() {
        if let Some(number) = legal_swap(line, row.name)? {
            check_swap(alloc, schema, script, &found, row, number, wrong)?;
            count = count.wrapping_add(1);
        }
    }
    Ok(count)
}

/// Does this by the schema of its protocol.
fn check_swaps_by(
    alloc: Global,
    schema: &Schema,
    row: Row<'_>,
    wrong: &mut String,
) -> Result<u32, Fail>
    requires { IsSound schema.now }
{
    let script = script_of(alloc, schema, row.file, row.script)?;
    check_swaps_of(alloc, schema, &script, row, wrong)
}

/// Does this for the worked run of this name.
fn check_run(alloc: Global, name: &str, wrong: &mut String) -> Result<u32, Fail> {
    let row = worked(name)?;
    let schema = schema_of(alloc, row.file)?;
    check_swaps_by(alloc, &schema, row, wrong)
}

/// Notes the wrong texts of the table of audits, and returns how many legal texts there are.
fn check_audits(alloc: Global, wrong: &mut String) -> Result<u32, Fail> {
    let mut count = 0u32;
    for row in AUDITS.split("====\n") {
        count = count.wrapping_add(check_audit(alloc, row, wrong)?);
    }
    Ok(count)
}

/// Notes the wrong texts of these worked runs in the table of swaps, and returns how many legal texts they have there.
fn check_swaps(alloc: Global, wrong: &mut String) -> Result<u32, Fail> {
    let mut count = 0u32;
    for name in SWAPPED.lines() {
        count = count.wrapping_add(check_run(alloc, name, wrong)?);
    }
    Ok(count)
}

/// Returns which texts are wrong, and how many legal texts each table has.
fn checked(alloc: Global) -> Result<String, Fail> {
    let mut wrong = String::new(alloc);
    let audits = check_audits(alloc, &mut wrong)?;
    let swaps = check_swaps(alloc, &mut wrong)?;
    write!(wrong, "{audits} {swaps}")?;
    Ok(wrong)
}

/// Each legal text of the two tables is exactly one way of its script with its limit. Left out are the seven swaps in the
/// two worked runs whose scripts have more than a thousand ways.
#[test]
fn legal_texts_are_ways(rt: HostRuntime) -> Result<(), Fail> {
    assert_eq!(rt; checked(rt.alloc())?.as_str(), "6 42");
    Ok(())
}

//! Worked runs, and what each prints.

ghost use Rattle.ipdl_base.specs.Sound.{IsSound};
ghost use Rattle.handler_script.specs.Valid.{IsValid};

use super::apart_rows::APART;
use super::courses::{Printout, course_of, driven, printed};
use super::deep_rows::DEEP;
use super::given::script_of;
use super::laws::{ALL_LAWS, lawful};
use super::order_rows::ORDERS;
use super::texts::lines_and_ending;
use handler_script::Script;
use history::history_text;
use history_of_text::{history_of, schema_of};
use ipdl_base::Schema;
use std::alloc::Global;
use std::test::Fail;
use worked_runs::{RUNS, Row, row_of};

/// Returns what is wrong with the expected lines of a run: a law does not hold, or their history has
/// another text.
fn fault(alloc: Global, schema: &Schema, lines: &str) -> Result<&'static str, Fail>
    requires { IsSound schema.now }
{
    let history = history_of(alloc, schema, lines)?;
    if lawful(alloc, schema, &history)? != ALL_LAWS {
        return Ok("a law that does not hold");
    }
    let text = history_text(alloc, schema, &history)?;
    if str::from_utf8(text.as_slice())? != lines {
        return Ok("another text");
    }
    Ok("")
}

/// Returns what is wrong with what a run prints: it is not what is expected, or a law does not hold.
pub fn fault_of(run: &Printout, wanted: &str) -> &'static str {
    if run.text.as_str() != wanted {
        "another run"
    } else if run.laws != ALL_LAWS {
        "a law that does not hold of the run"
    } else {
        ""
    }
}

/// Returns what is wrong with the run of a script, by its world alone or by a driver.
fn fault_of_run(
    alloc: Global,
    schema: &Schema,
    script: &Script,
    row: Row<'_>,
) -> Result<&'static str, Fail>
    requires sound { IsSound schema.now }
    requires valid { IsValid schema.now script.now }
{
    let course = course_of(alloc, row.course)?;
    let run = printed(alloc, schema, script, &course)?;
    let found = fault_of(&run, row.printed);
    if !found.is_empty() {
        return Ok(found);
    }
    let run = driven(alloc, schema, script, course)?;
    Ok(fault_of(&run, row.printed))
}

/// Returns what is wrong with a row, with the schema of its protocol: its lines, or the run.
fn fault_under(alloc: Global, schema: &Schema, row: Row<'_>) -> Result<&'static str, Fail>
    requires { IsSound schema.now }
{
    let (lines, _) = lines_and_ending(row.printed).ok_or("a row that does not say how it ends")?;
    let found = fault(alloc, schema, lines)?;
    if !found.is_empty() {
        return Ok(found);
    }
    let script = script_of(alloc, schema, row.file, row.script)?;
    fault_of_run(alloc, schema, &script, row)
}

/// Notes a row if something is wrong with it.
fn check(alloc: Global, text: &str, wrong: &mut String) -> Result<(), Fail> {
    let row = row_of(text).ok_or("a row without one of its parts")?;
    let schema = schema_of(alloc, row.file)?;
    let found = fault_under(alloc, &schema, row)?;
    if !found.is_empty() {
        writeln!(wrong, "{}: {found}", row.name)?;
    }
    Ok(())
}

/// Returns the rows of a table that are wrong, and how many rows there are.
fn checked(alloc: Global, table: &str) -> Result<String, Fail> {
    let mut shown = String::new(alloc);
    let mut count = 0u32;
    for row in table.split("====\n") {
        check(alloc, row, &mut shown)?;
        count = count.wrapping_add(1);
    }
    write!(shown, "{count}")?;
    Ok(shown)
}

#[test]
fn worked_runs(rt: HostRuntime) -> Result<(), Fail> {
    assert_eq!(rt; checked(rt.alloc(), RUNS)?.as_str(), "22");
    assert_eq!(rt; checked(rt.alloc(), DEEP)?.as_str(), "1");
    Ok(())
}

#[test]
fn orders_of_own_steps(rt: HostRuntime) -> Result<(), Fail> {
    assert_eq!(rt; checked(rt.alloc(), ORDERS)?.as_str(), "21");
    Ok(())
}

#[test]
fn orders_of_halves(rt: HostRuntime) -> Result<(), Fail> {
    assert_eq!(rt; checked(rt.alloc(), APART)?.as_str(), "4");
    Ok(())
}

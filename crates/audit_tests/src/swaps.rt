//! Audits of texts in which two neighbouring events are swapped.

ghost use Rattle.handler_script.specs.Valid.{IsValid};
ghost use Rattle.ipdl_base.specs.Sound.{IsSound};

use super::given::{limit_of, schema_of, script_of};
use super::texts::said;
use handler_script::Script;
use ipdl_base::Schema;
use std::alloc::Global;
use std::test::Fail;
use worked_runs::{RUNS, Row, SWAPS, events_of, row_of, swapped};

/// Returns whether two events are of different sides.
fn are_apart(one: &str, other: &str) -> bool {
    one.starts_with("parent ") && other.starts_with("child ")
        || one.starts_with("child ") && other.starts_with("parent ")
}

/// Writes what the audits of a row report, with any two neighbours of different sides swapped.
fn write_swaps(
    alloc: Global,
    schema: &Schema,
    script: &Script,
    limit: u32,
    row: Row<'_>,
    out: &mut String,
) -> Result<(), Fail>
    requires sound { IsSound schema.now }
    requires valid { IsValid schema.now script.now }
{
    let events = events_of(alloc, row.printed)?;
    let events = events.as_slice();
    for (place, event) in events.iter().enumerate() {
        let number = place.saturating_add(1);
        let next = events.get(number).map_or("", |next| next.as_str());
        if are_apart(event.as_str(), next) {
            let text = swapped(alloc, events, place)?;
            let said = said(alloc, schema, script, limit, text.as_bytes())?;
            writeln!(out, "{} {number} {said}", row.name)?;
        }
    }
    Ok(())
}

/// Writes what the audits of a row report, with the schema of its protocol.
fn write_row(
    alloc: Global,
    schema: &Schema,
    limit: u32,
    row: Row<'_>,
    out: &mut String,
) -> Result<(), Fail>
    requires { IsSound schema.now }
{
    let script = script_of(alloc, schema, row.file, row.script)?;
    write_swaps(alloc, schema, &script, limit, row, out)
}

/// Returns what the audits of the worked runs without a death report, each with any two neighbours of
/// different sides swapped.
fn all_swaps(alloc: Global) -> Result<String, Fail> {
    let mut out = String::new(alloc);
    for text in RUNS.split("====\n") {
        let row = row_of(text).ok_or("a row without one of its parts")?;
        if let Some(limit) = limit_of(row)? {
            let schema = schema_of(alloc, row.file)?;
            write_row(alloc, &schema, limit, row, &mut out)?;
        }
    }
    Ok(out)
}

#[test]
fn swapped_events(rt: HostRuntime) -> Result<(), Fail> {
    assert_eq!(rt; all_swaps(rt.alloc())?.as_str(), SWAPS);
    Ok(())
}

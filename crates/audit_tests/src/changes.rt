//! Audits of texts that are cut, with a byte turned, or with a line doubled.

ghost use Rattle.handler_script.specs.Valid.{IsValid};
ghost use Rattle.ipdl_base.specs.Sound.{IsSound};

use super::given::{limit_of, schema_of, script_of};
use super::texts::found;
use handler_script::Script;
use ipdl_base::Schema;
use ipdl_top::Audit;
use std::alloc::Global;
use std::test::Fail;
use worked_runs::{RUNS, Row, row_of};

/// No side of these runs has this number of events. A world takes memory for as many events as its
/// limit allows, and here a world is opened for each changed text.
pub const MOST_EVENTS: u32 = 64;

/// How a text is changed at one of its bytes.
#[derive(Clone, Copy)]
enum Change {
    /// The text ends before the byte. If the byte begins a line, this line is missing. If not, the rest
    /// of the line has no line feed, so no run prints it.
    Cut,
    /// The lowest bit of the byte is flipped. The line then never names the other side, nor a delivery
    /// instead of a step of its own, so no run prints it after the lines before it.
    Turned,
    /// The line that ends with the byte is doubled. Each line has numbers, or ends something, that
    /// occur once in these runs, so no run prints it again.
    Doubled,
}

/// Returns a text that is changed at the byte at `place`. The line of this byte begins at `begin`.
fn changed(
    alloc: Global,
    text: &[u8],
    begin: usize,
    place: usize,
    change: Change,
) -> Result<Vec<u8>, Fail> {
    let following = place.saturating_add(1);
    let mut made = Vec::from_slice(alloc, text.get(..place).unwrap_or(text))?;
    match change {
        Change::Cut => return Ok(made),
        Change::Turned => made.push(text.get(place).copied().unwrap_or(0) ^ 1)?,
        Change::Doubled => {
            made.push(b'\n')?;
            made.extend_from_slice(text.get(begin..following).unwrap_or(&[]))?;
        }
    }
    made.extend_from_slice(text.get(following..).unwrap_or(&[]))?;
    Ok(made)
}

/// Returns what an audit must report of a text that is changed at a byte of a line, the first byte or
/// another one.
fn wanted(line: u32, is_first: bool, change: Change) -> Audit {
    match change {
        Change::Cut if is_first => Audit::Early(line),
        Change::Cut | Change::Turned => Audit::NoStep(line),
        Change::Doubled => Audit::NoStep(line.wrapping_add(1)),
    }
}

/// Returns how many lines of a text are those of events: all except effects and the last line.
fn events_of(text: &str) -> u32 {
    let mut count = 0u32;
    for line in text.lines() {
        if line.starts_with("parent ") || line.starts_with("child ") {
            count = count.wrapping_add(1);
        }
    }
    count
}

/// Notes a change for which the audit reports something else.
fn check_change(
    alloc: Global,
    schema: &Schema,
    script: &Script,
    limit: u32,
    row: Row<'_>,
    at: (u32, usize, usize),
    change: Change,
    wrong: &mut String,
) -> Result<(), Fail>
    requires sound { IsSound schema.now }
    requires valid { IsValid schema.now script.now }
{
    let (line, begin, place) = at;
    let text = changed(alloc, row.printed.as_bytes(), begin, place, change)?;
    let found = found(alloc, schema, script, limit, text.as_slice())?;
    let wanted = wanted(line, begin == place, change);
    if found != wanted {
        writeln!(
            wrong,
            "{} at byte {place}: {found:?} for {wanted:?}",
            row.name
        )?;
    }
    Ok(())
}

/// Notes the changes of a row for which the audit is wrong.
fn check_changes(
    alloc: Global,
    schema: &Schema,
    script: &Script,
    limit: u32,
    row: Row<'_>,
    wrong: &mut String,
) -> Result<(), Fail>
    requires sound { IsSound schema.now }
    requires valid { IsValid schema.now script.now }
{
    let mut line = 1u32;
    let mut begin = 0usize;
    for (place, byte) in row.printed.as_bytes().iter().enumerate() {
        let at = (line, begin, place);
        check_change(alloc, schema, script, limit, row, at, Change::Cut, wrong)?;
        check_change(alloc, schema, script, limit, row, at, Change::Turned, wrong)?;
        if *byte == b'\n' {
            check_change(
                alloc,
                schema,
                script,
                limit,
                row,
                at,
                Change::Doubled,
                wrong,
            )?;
            line = line.wrapping_add(1);
            begin = place.wrapping_add(1);
        }
    }
    Ok(())
}

/// Notes the same for a row, with the schema of its protocol.
fn check_row(
    alloc: Global,
    schema: &Schema,
    limit: u32,
    row: Row<'_>,
    wrong: &mut String,
) -> Result<(), Fail>
    requires { IsSound schema.now }
{
    let script = script_of(alloc, schema, row.file, row.script)?;
    let found = found(alloc, schema, &script, limit, row.printed.as_bytes())?;
    if found != Audit::Legal(events_of(row.printed)) {
        writeln!(wrong, "{}: {found:?}", row.name)?;
    }
    check_changes(alloc, schema, &script, limit, row, wrong)
}

/// Returns the changes of the worked runs without a death for which the audit is wrong, and how many
/// such runs there are.
fn checked(alloc: Global) -> Result<String, Fail> {
    let mut wrong = String::new(alloc);
    let mut count = 0u32;
    for text in RUNS.split("====\n") {
        let row = row_of(text).ok_or("a row without one of its parts")?;
        if let Some(limit) = limit_of(row)? {
            let schema = schema_of(alloc, row.file)?;
            check_row(alloc, &schema, limit.min(MOST_EVENTS), row, &mut wrong)?;
            count = count.wrapping_add(1);
        }
    }
    write!(wrong, "{count}")?;
    Ok(wrong)
}

#[test]
fn changed_runs(rt: HostRuntime) -> Result<(), Fail> {
    assert_eq!(rt; checked(rt.alloc())?.as_str(), "20");
    Ok(())
}

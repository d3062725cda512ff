//! That words of ways lead to the ways, and that worked runs are ways.

ghost use Rattle.handler_script.specs.Valid.{IsValid};
ghost use Rattle.ipdl_base.specs.Sound.{IsSound};

use super::given::{schema_of, script_of, worked};
use super::printed::{count_alike, printed};
use super::texts::explored;
use super::way_rows::{FIVE_WAYS, WORKED};
use explorations::{Exploration, Way};
use handler_script::Script;
use ipdl_base::{Schema, Side};
use schedules::Turn;
use std::alloc::{AllocError, Global};
use std::test::Fail;
use worked_runs::Row;

/// More events of a side than any run here has.
const LIMIT: u32 = 100;

/// Returns the letter of a turn.
fn letter_of(turn: Turn) -> char {
    match (turn.side, turn.only_deliver) {
        (Side::Parent, false) => 'P',
        (Side::Child, false) => 'C',
        (Side::Parent, true) => 'p',
        (Side::Child, true) => 'c',
    }
}

/// Appends the letters of a word.
fn push_word(out: &mut String, word: &[Turn]) -> Result<(), AllocError> {
    for turn in word {
        out.push(letter_of(*turn))?;
    }
    Ok(())
}

/// Appends the word of a way, and what the run by it prints.
fn push_way(
    out: &mut String,
    alloc: Global,
    schema: &Schema,
    script: &Script,
    way: &Way,
) -> Result<(), Fail>
    requires sound { IsSound schema.now }
    requires valid { IsValid schema.now script.now }
{
    let text = printed(alloc, schema, script, LIMIT, way)?;
    out.push_str("==== ")?;
    push_word(out, way.word.as_slice())?;
    out.push('\n')?;
    Ok(out.push_str(str::from_utf8(text.as_slice())?)?)
}

/// Returns what the words of all ways print.
fn all_printed(
    alloc: Global,
    schema: &Schema,
    script: &Script,
    found: &Exploration,
) -> Result<String, Fail>
    requires sound { IsSound schema.now }
    requires valid { IsValid schema.now script.now }
{
    let mut out = String::new(alloc);
    for way in found.ways.as_slice() {
        push_way(&mut out, alloc, schema, script, way)?;
    }
    Ok(out)
}

/// Returns what the words of the ways of a worked script print, by the schema of its protocol.
fn printed_by(alloc: Global, schema: &Schema, row: Row<'_>) -> Result<String, Fail>
    requires { IsSound schema.now }
{
    let script = script_of(alloc, schema, row.file, row.script)?;
    let found = explored(alloc, schema, &script, LIMIT, 1_000)?;
    all_printed(alloc, schema, &script, &found)
}

/// Returns what the words of the ways of a worked script print.
fn printed_ways(alloc: Global, name: &str) -> Result<String, Fail> {
    let row = worked(name)?;
    let schema = schema_of(alloc, row.file)?;
    printed_by(alloc, &schema, row)
}

#[test]
fn words_of_ways(rt: HostRuntime) -> Result<(), Fail> {
    let text = printed_ways(rt.alloc(), "both-call-at-once")?;
    assert!(rt; text.as_str() == FIVE_WAYS);
    Ok(())
}

/// Returns how many ways end as they say by their words, and how many have the lines of the worked run.
fn counted(
    alloc: Global,
    schema: &Schema,
    script: &Script,
    found: &Exploration,
    row: Row<'_>,
) -> Result<(u32, u32), Fail>
    requires sound { IsSound schema.now }
    requires valid { IsValid schema.now script.now }
{
    let mut good = 0u32;
    for way in found.ways.as_slice() {
        if !printed(alloc, schema, script, LIMIT, way)?.is_empty() {
            good = good.wrapping_add(1);
        }
    }
    let alike = count_alike(alloc, schema, script, LIMIT, found, row.printed)?;
    Ok((good, alike))
}

/// Returns these numbers of a worked run, by the schema of its protocol.
fn counted_by(alloc: Global, schema: &Schema, row: Row<'_>) -> Result<(u32, u32), Fail>
    requires { IsSound schema.now }
{
    let script = script_of(alloc, schema, row.file, row.script)?;
    let found = explored(alloc, schema, &script, LIMIT, 1_000)?;
    counted(alloc, schema, &script, &found, row)
}

/// Notes a row whose ways do not end as they say, or of which not one has the lines of the worked run.
fn check(alloc: Global, row: &str, wrong: &mut String) -> Result<(), Fail> {
    let (name, wanted) = row.split_once(" ").ok_or("a row without its number")?;
    let run = worked(name)?;
    let schema = schema_of(alloc, run.file)?;
    let (good, alike) = counted_by(alloc, &schema, run)?;
    if good != wanted.parse::<u32>()? || alike != 1 {
        writeln!(wrong, "{name}: {good} {alike}")?;
    }
    Ok(())
}

/// Returns which rows are wrong, and how many rows there are.
fn checked(alloc: Global) -> Result<String, Fail> {
    let mut wrong = String::new(alloc);
    let mut count = 0u32;
    for row in WORKED.lines() {
        check(alloc, row, &mut wrong)?;
        count = count.wrapping_add(1);
    }
    write!(wrong, "{count}")?;
    Ok(wrong)
}

#[test]
fn worked_runs_are_ways(rt: HostRuntime) -> Result<(), Fail> {
    assert_eq!(rt; checked(rt.alloc())?.as_str(), "7");
    Ok(())
}

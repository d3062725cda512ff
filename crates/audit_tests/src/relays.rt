//! What relays print, and audits of a merge of both halves.

ghost use Rattle.handler_script.specs.Valid.{IsValid};
ghost use Rattle.ipdl_base.specs.Sound.{IsSound};

use super::apart::ending_of;
use super::changes::MOST_EVENTS;
use super::given::{schema_of, script_of};
use super::relay_rows::RELAYS;
use super::texts::found;
use handler_script::Script;
use history::history_text;
use ipdl_base::{Schema, Side};
use ipdl_top::Audit;
use queue_link::{Gate, TwoQueues};
use std::alloc::Global;
use std::sync::Wait;
use std::test::Fail;
use std::thread::Threads;
use worked_runs::{RACE_SCRIPT, RUNS, Row, events_of, row_of};
use world_core::{Halves, OneThread, Relay, RunAnswer, Stop, World};

/// Returns what a relay prints: the lines of the parent, those of the child, and how it ended.
fn printed(
    alloc: Global,
    schema: &Schema,
    halves: &Halves,
    answer: RunAnswer,
) -> Result<Vec<u8>, Fail>
    requires { IsSound schema.now }
{
    let mut text = history_text(alloc, schema, &halves.parent)?;
    text.extend_from_slice(history_text(alloc, schema, &halves.child)?.as_slice())?;
    text.extend_from_slice(ending_of(answer).as_bytes())?;
    Ok(text)
}

/// Returns what the relay of a script on one thread prints.
fn printed_in_turn(
    alloc: Global,
    schema: &Schema,
    script: &Script,
    stop: Option<Stop>,
) -> Result<Vec<u8>, Fail>
    requires sound { IsSound schema.now }
    requires valid { IsValid schema.now script.now }
{
    let world = World::open(alloc, schema, script, stop, MOST_EVENTS)?;
    let (halves, answer) = OneThread::new(Vec::new(alloc)).run_queues(world);
    printed(alloc, schema, &halves, answer)
}

/// Returns what a relay of a script prints whose sides run at the same time.
fn printed_at_once<R: Threads + Wait + Sync + AllocGlobal>(
    rt: &R,
    schema: &Schema,
    script: &Script,
    stop: Option<Stop>,
) -> Result<Vec<u8>, Fail>
    requires sound { IsSound schema.now }
    requires valid { IsValid schema.now script.now }
{
    let world = World::open(rt.alloc(), schema, script, stop, MOST_EVENTS)?;
    let (halves, answer) = TwoQueues::new(rt, Gate::Open).run_queues(world);
    printed(rt.alloc(), schema, &halves, answer)
}

/// Returns how many of a hundred relays whose sides run at the same time print this text.
fn equal_relays<R: Threads + Wait + Sync + AllocGlobal>(
    rt: &R,
    schema: &Schema,
    script: &Script,
    stop: Option<Stop>,
    text: &[u8],
) -> Result<u32, Fail>
    requires sound { IsSound schema.now }
    requires valid { IsValid schema.now script.now }
{
    let mut good = 0u32;
    for _ in 0..100 {
        if printed_at_once(rt, schema, script, stop)?.as_slice() == text {
            good = good.wrapping_add(1);
        }
    }
    Ok(good)
}

/// Returns whether this is what a row prints, with the events of the parent before those of the child.
/// A run by a word with small letters may deliver before a side's own step, which no relay does; for
/// such a row any text is accepted.
fn is_of_row(alloc: Global, row: Row<'_>, text: &[u8]) -> Result<bool, Fail> {
    let (word, _) = row.course.split_once(" ").ok_or("a word alone")?;
    if word.contains("p") || word.contains("c") {
        return Ok(true);
    }
    let events = events_of(alloc, row.printed)?;
    let mut wanted = String::new(alloc);
    for head in "parent child finished".split(" ") {
        for event in events.as_slice() {
            if event.starts_with(head) {
                wanted.push_str(event.as_str())?;
            }
        }
    }
    Ok(wanted.as_bytes() == text)
}

/// Returns whether this event is the parent's, and an audit accepts it after this text.
fn is_taken(
    alloc: Global,
    schema: &Schema,
    script: &Script,
    text: &str,
    event: &str,
) -> Result<bool, Fail>
    requires sound { IsSound schema.now }
    requires valid { IsValid schema.now script.now }
{
    let longer = format!(in alloc; "{text}{event}")?;
    let found = found(alloc, schema, script, MOST_EVENTS, longer.as_bytes())?;
    Ok(event.starts_with("parent ") && matches!(found, Audit::Early(_)))
}

/// Returns a merge of both halves. `events` has those of the parent first, and those of the child from
/// `begin` on. Each time the merge takes the parent's next event if the audit accepts it, or else the
/// child's.
fn merged(
    alloc: Global,
    schema: &Schema,
    script: &Script,
    events: &[String],
    begin: usize,
) -> Result<String, Fail>
    requires sound { IsSound schema.now }
    requires valid { IsValid schema.now script.now }
{
    let mut text = String::new(alloc);
    let mut parent = 0usize;
    let mut child = begin;
    for _ in events {
        let event = events.get(parent).map_or("", |event| event.as_str());
        if is_taken(alloc, schema, script, text.as_str(), event)? {
            text.push_str(event)?;
            parent = parent.saturating_add(1);
        } else {
            text.push_str(events.get(child).map_or("", |event| event.as_str()))?;
            child = child.saturating_add(1);
        }
    }
    Ok(text)
}

/// Returns whether a merge of both halves of what a relay prints is legal, with all its events.
fn is_legal(alloc: Global, schema: &Schema, script: &Script, printed: &[u8]) -> Result<bool, Fail>
    requires sound { IsSound schema.now }
    requires valid { IsValid schema.now script.now }
{
    let events = events_of(alloc, str::from_utf8(printed)?)?;
    let mut begin = 0usize;
    for event in events.as_slice() {
        if event.starts_with("parent ") {
            begin = begin.saturating_add(1);
        }
    }
    let text = merged(alloc, schema, script, events.as_slice(), begin)?;
    let found = found(alloc, schema, script, MOST_EVENTS, text.as_bytes())?;
    Ok(matches!(found, Audit::Legal(count) if count as usize == events.len().wrapping_sub(1)))
}

/// Returns the death of the child in a row, if it has one.
fn stop_of(row: Row<'_>) -> Result<Option<Stop>, Fail> {
    let Some((_, after)) = row.course.split_once("child:") else {
        return Ok(None);
    };
    Ok(Some(Stop {
        side: Side::Child,
        after: after.parse::<u32>()?,
    }))
}

/// Notes what relays of a row print that is wrong, with the schema of its protocol.
fn check_row<R: Threads + Wait + Sync + AllocGlobal>(
    rt: &R,
    schema: &Schema,
    row: Row<'_>,
    wrong: &mut String,
) -> Result<(), Fail>
    requires { IsSound schema.now }
{
    let text = if row.script == "" {
        RACE_SCRIPT
    } else {
        row.script
    };
    let script = script_of(rt.alloc(), schema, row.file, text)?;
    let stop = stop_of(row)?;
    let text = printed_in_turn(rt.alloc(), schema, &script, stop)?;
    let good = equal_relays(rt, schema, &script, stop, text.as_slice())?;
    let is_of_row = is_of_row(rt.alloc(), row, text.as_slice())?;
    let is_legal = stop.is_some() || is_legal(rt.alloc(), schema, &script, text.as_slice())?;
    if good != 100 || !is_of_row || !is_legal {
        writeln!(wrong, "{}: {good} {is_of_row} {is_legal}", row.name)?;
    }
    Ok(())
}

/// Returns what relays of the rows that finish print that is wrong, and how many such rows there are.
fn checked<R: Threads + Wait + Sync + AllocGlobal>(rt: &R, rows: &str) -> Result<String, Fail> {
    let mut wrong = String::new(rt.alloc());
    let mut count = 0u32;
    for text in rows.split("====\n") {
        let row = row_of(text).ok_or("a row without one of its parts")?;
        if row.printed.ends_with("finished\n") {
            let schema = schema_of(rt.alloc(), row.file)?;
            check_row(rt, &schema, row, &mut wrong)?;
            count = count.wrapping_add(1);
        }
    }
    write!(wrong, "{count}")?;
    Ok(wrong)
}

#[test]
fn relays_of_worked_runs(rt: HostRuntime) -> Result<(), Fail> {
    assert_eq!(rt; checked(&rt, RUNS)?.as_str(), "21");
    Ok(())
}

#[test]
fn relays_of_rows(rt: HostRuntime) -> Result<(), Fail> {
    assert_eq!(rt; checked(&rt, RELAYS)?.as_str(), "9");
    Ok(())
}

//! Plays rows of calls between two ends, and compares what they give.
ghost use Rattle.ipdl_base.specs.Sound.{IsSound};

use super::actor_rows::{ACTOR_COUNT, ACTOR_ROWS};
use super::calls::TestedEnd;
use super::interruptions::take_counts_of;
use super::nesting_rows::{NESTING_COUNT, NESTING_ROWS};
use super::packet_rows::{PACKET_COUNT, PACKET_ROWS};
use super::programs::schema_of;
use super::resolver_rows::{RESOLVER_COUNT, RESOLVER_ROWS};
use history::{History, history_text};
use ipdl_base::{Schema, Side};
use std::alloc::Global;
use std::test::Fail;

/// A row of calls: the schema of its program, the number of the top protocol, and its lines.
#[derive(Clone, Copy)]
struct CallRow<'s> {
    alloc: Global,
    schema: &'s Schema,
    top: u32,
    calls: &'s str,
}

/// Does a call at an end, and writes its answer and the count of its packets. A call that finds no
/// memory is done once more: it has changed nothing.
fn call(
    alloc: Global,
    end: &mut TestedEnd,
    other: &mut TestedEnd,
    lines: &mut History,
    log: &mut String,
    text: &str,
) -> Result<(), Fail> {
    let first = end.call(text)?;
    let answer = match first {
        Some(answer) => answer,
        None => again(alloc, end, text)?,
    };
    let packets = end.hand_over(other)?;
    end.drain(lines)?;
    writeln!(log, " = {answer} +{packets}")?;
    Ok(())
}

/// A call that has found no memory once.
fn again(alloc: Global, end: &mut TestedEnd, text: &str) -> Result<String, Fail> {
    match end.call(text)? {
        Some(answer) => Ok(answer),
        None => Ok(String::from_str(alloc, "no memory")?),
    }
}

/// Does the call of a line, which begins with its side and ends before ` = `.
fn call_line(
    alloc: Global,
    parent: &mut TestedEnd,
    child: &mut TestedEnd,
    lines: &mut History,
    log: &mut String,
    line: &str,
) -> Result<(), Fail> {
    let (text, _) = line.split_once(" = ").ok_or("a call without its answer")?;
    write!(log, "{text}")?;
    let (side, text) = text.split_once(" ").ok_or("a side alone")?;
    match side {
        "parent" => call(alloc, parent, child, lines, log, text),
        "child" => call(alloc, child, parent, lines, log, text),
        _ => Err("no side".into()),
    }
}

/// Appends the lines that both ends print.
fn push_lines(row: CallRow, lines: &History, log: &mut String) -> Result<(), Fail>
    requires { IsSound row.schema.now }
{
    let text = history_text(row.alloc, row.schema, lines)?;
    writeln!(log, "--")?;
    write!(log, "{}", str::from_utf8(text.as_slice())?)?;
    Ok(())
}

/// Plays the calls of a row between two ends. What is taken while a call waits is counted, and listed
/// in the report of what may interrupt a wait.
fn play_lines(
    row: CallRow,
    parent: &mut TestedEnd,
    child: &mut TestedEnd,
    lines: &mut History,
    log: &mut String,
    taken: &mut u32,
) -> Result<(), Fail>
    requires { IsSound row.schema.now }
{
    for line in row.calls.lines() {
        call_line(row.alloc, parent, child, lines, log, line)?;
    }
    let found = take_counts_of(row.alloc, row.schema, row.top, lines)?;
    if found.unlisted > 0 {
        return Err("a wait is interrupted by what the report does not list".into());
    }
    *taken = taken.wrapping_add(found.taken);
    push_lines(row, lines, log)
}

fn play_between(
    row: CallRow,
    parent: &mut TestedEnd,
    child: &mut TestedEnd,
    log: &mut String,
    taken: &mut u32,
) -> Result<(), Fail>
    requires { IsSound row.schema.now }
{
    let mut lines = History::new(row.alloc);
    let done = play_lines(row, parent, child, &mut lines, log, taken);
    drop(lines);
    done
}

fn play_with_parent(
    row: CallRow,
    parent: &mut TestedEnd,
    log: &mut String,
    taken: &mut u32,
) -> Result<(), Fail>
    requires { IsSound row.schema.now }
{
    let mut child = TestedEnd::open(row.alloc, Side::Child, row.schema, row.top)?;
    let done = play_between(row, parent, &mut child, log, taken);
    drop(child);
    done
}

/// Plays a row between two new ends, and writes each of its calls with its answer, and the lines that
/// both ends print.
fn play(row: CallRow, log: &mut String, taken: &mut u32) -> Result<(), Fail>
    requires { IsSound row.schema.now }
{
    let mut parent = TestedEnd::open(row.alloc, Side::Parent, row.schema, row.top)?;
    let done = play_with_parent(row, &mut parent, log, taken);
    drop(parent);
    done
}

/// A text in which each `%N` is that many letters.
fn expanded(alloc: Global, text: &str) -> Result<String, Fail> {
    let mut whole = String::new(alloc);
    let mut pieces = text.split("%");
    if let Some(first) = pieces.next() {
        whole.push_str(first)?;
    }
    for piece in pieces {
        let (count, rest) = piece.split_once("\"").ok_or("no count of letters")?;
        for _ in 0..count.parse::<u32>()? {
            whole.push('a')?;
        }
        whole.push('"')?;
        whole.push_str(rest)?;
    }
    Ok(whole)
}

/// What a row gives, where its head names the file and the number of the top protocol.
fn given(alloc: Global, head: &str, calls: &str, taken: &mut u32) -> Result<String, Fail> {
    let (word, rest) = head.split_once(" ").ok_or("a row without its file")?;
    let (top, _) = rest
        .split_once(" ")
        .ok_or("a row without its top protocol")?;
    let top = top.parse::<u32>()?;
    let schema = schema_of(alloc, word)?;
    let mut log = String::new(alloc);
    let row = CallRow {
        alloc,
        schema: &schema,
        top,
        calls,
    };
    let done = play(row, &mut log, taken);
    drop(schema);
    done?;
    Ok(log)
}

/// Notes a row whose results differ from its text, and counts what it takes while a call waits.
fn check(alloc: Global, row: &str, wrong: &mut String, taken: &mut u32) -> Result<(), Fail> {
    let whole = expanded(alloc, row)?;
    let (head, wanted) = whole
        .as_str()
        .split_once("\n")
        .ok_or("a row without calls")?;
    let (calls, _) = wanted.split_once("--\n").ok_or("a row without lines")?;
    let found = given(alloc, head, calls, taken)?;
    if found.as_str() != wanted {
        writeln!(wrong, "{head}\n{found}")?;
    }
    Ok(())
}

/// Returns the rows whose results differ from their texts, and the number of rows. A row has the file
/// of its protocol, the number of the top protocol and what it shows; then calls, each with its
/// result and the number of packets that it puts; and after `--` the lines that both ends print. `%N`
/// is N letters, and `====` is between two rows.
fn checked(alloc: Global, rows: &str) -> Result<String, Fail> {
    let mut shown = String::new(alloc);
    let mut count = 0u32;
    let mut taken = 0u32;
    for row in rows.split("====\n") {
        check(alloc, row, &mut shown, &mut taken)?;
        count = count.wrapping_add(1);
    }
    write!(shown, "{count}")?;
    Ok(shown)
}

/// The number of requests that the rows of each program take while a call waits.
const TAKEN: &str = "PC.ipdl 2
PHub.ipdl 4
PLz.ipdl 1
PQ.ipdl 1
PR.ipdl 1
PTwo.ipdl 2
PW.ipdl 64
";

/// Returns the number of requests that the rows of a program take while a call waits.
fn taken_in(alloc: Global, program: &str, wrong: &mut String) -> Result<u32, Fail> {
    let mut taken = 0u32;
    for rows in [RESOLVER_ROWS, ACTOR_ROWS, NESTING_ROWS, PACKET_ROWS] {
        for row in rows.split("====\n") {
            if row.starts_with(program) {
                check(alloc, row, wrong, &mut taken)?;
            }
        }
    }
    Ok(taken)
}

/// The same of each program.
fn taken_in_all(alloc: Global) -> Result<String, Fail> {
    let mut shown = String::new(alloc);
    for line in TAKEN.lines() {
        let (program, _) = line.split_once(" ").ok_or("a program without its count")?;
        let taken = taken_in(alloc, program, &mut shown)?;
        writeln!(shown, "{program} {taken}")?;
    }
    Ok(shown)
}

/// Each program has rows in which a request is taken while a call waits.
#[test]
fn taken_under_waits(rt: HostRuntime) -> Result<(), Fail> {
    assert_eq!(rt; taken_in_all(rt.alloc())?.as_str(), TAKEN);
    Ok(())
}

/// Rows on resolvers, names, and ends that have closed.
#[test]
fn resolver_calls(rt: HostRuntime) -> Result<(), Fail> {
    assert_eq!(rt;
        checked(rt.alloc(), RESOLVER_ROWS)?.as_str(),
        RESOLVER_COUNT
    );
    Ok(())
}

/// Rows on actors, their values, and what arrives and waits.
#[test]
fn actor_calls(rt: HostRuntime) -> Result<(), Fail> {
    assert_eq!(rt; checked(rt.alloc(), ACTOR_ROWS)?.as_str(), ACTOR_COUNT);
    Ok(())
}

/// Rows on calls inside calls, and ends that close or die under them.
#[test]
fn nesting_calls(rt: HostRuntime) -> Result<(), Fail> {
    assert_eq!(rt; checked(rt.alloc(), NESTING_ROWS)?.as_str(), NESTING_COUNT);
    Ok(())
}

/// Rows on packets of any bytes, and frames.
#[test]
fn packet_calls(rt: HostRuntime) -> Result<(), Fail> {
    assert_eq!(rt; checked(rt.alloc(), PACKET_ROWS)?.as_str(), PACKET_COUNT);
    Ok(())
}

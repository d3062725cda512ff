//! Tests of the calls that wait after some lines.
ghost use Rattle.ipdl_base.specs.Sound.{IsSound};

use super::chain_rows::{CHAINS, CHAINS_COUNT};
use super::given::note;
use history::History;
use history_of_text::{history_of, schema_of};
use ipdl_base::{Schema, Side};
use reading_checks::{UnansweredCall, can_read, chain};
use std::alloc::{AllocError, Global};
use std::test::Fail;

/// Calls, each as its end and its number, with a comma between each two.
pub fn show(alloc: Global, calls: &[UnansweredCall]) -> Result<String, AllocError> {
    if calls.is_empty() {
        return String::from_str(alloc, "nobody");
    }
    let mut shown = String::new(alloc);
    for (place, call) in calls.iter().enumerate() {
        let comma = if place > 0 { ", " } else { "" };
        let side = match call.side {
            Side::Parent => "parent",
            Side::Child => "child",
        };
        write!(shown, "{comma}{side} {}", call.head.seq)?;
    }
    Ok(shown)
}

/// The unanswered calls after the first lines of a history.
pub fn waiting(
    alloc: Global,
    schema: &Schema,
    history: &History,
    count: usize,
) -> Result<String, AllocError>
    requires { IsSound schema.now }
{
    if count > history.lines().len() {
        return String::from_str(alloc, "fewer lines");
    }
    if !can_read(alloc, schema, history, count)? {
        return String::from_str(alloc, "lines that are not readable");
    }
    let calls = chain(alloc, schema, history, count)?;
    show(alloc, calls.as_slice())
}

/// Notes the answers for the history of a row that differ from the expected ones, and counts the
/// questions.
fn check_asked(
    alloc: Global,
    schema: &Schema,
    history: &History,
    name: &str,
    wanted: &str,
    wrong: &mut String,
) -> Result<u32, Fail>
    requires { IsSound schema.now }
{
    let mut asked = 0u32;
    for piece in wanted.split('\n') {
        let (count, _) = piece.split_once(": ").ok_or("no number of lines")?;
        let calls = waiting(alloc, schema, history, count.parse::<usize>()?)?;
        let found = format!(in alloc; "{count}: {calls}")?;
        note(name, found.as_str(), piece, wrong)?;
        asked = asked.wrapping_add(1);
    }
    Ok(asked)
}

/// As `check_asked`, of a row.
fn check(alloc: Global, row: &str, wrong: &mut String) -> Result<u32, Fail> {
    let (given, lines) = row.split_once("\n@\n").ok_or("a row without lines")?;
    let (head, wanted) = given.split_once("\n").ok_or("a row that asks nothing")?;
    let (name, word) = head.split_once(" ").ok_or("a row without its file")?;
    let schema = schema_of(alloc, word)?;
    let history = history_of(alloc, &schema, lines)?;
    check_asked(alloc, &schema, &history, name, wanted, wrong)
}

/// Returns the answers that differ from the expected ones, and the number of all.
fn checked(alloc: Global) -> Result<String, Fail> {
    let mut shown = String::new(alloc);
    let mut count = 0u32;
    for row in CHAINS.split("====\n") {
        count = count.wrapping_add(check(alloc, row, &mut shown)?);
    }
    write!(shown, "{count}")?;
    Ok(shown)
}

/// Which calls wait after some lines, the oldest first.
#[test]
fn chains(rt: HostRuntime) -> Result<(), Fail> {
    assert_eq!(rt; checked(rt.alloc())?.as_str(), CHAINS_COUNT);
    Ok(())
}

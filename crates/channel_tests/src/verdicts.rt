//! Tests of the laws on lists of lines.
use super::fallen_rows::{FALLEN, FALLEN_COUNT};
use super::given::{laws, note};
use super::living_rows::{LIVING, LIVING_COUNT};
use super::prefix_rows::{PREFIX, PREFIX_COUNT};
use super::settled_rows::{SETTLED, SETTLED_COUNT};
use super::waits_rows::{WAITS, WAITS_COUNT};
use super::whole_rows::{WHOLE, WHOLE_COUNT};
use history_of_text::{history_of, schema_of};
use std::alloc::Global;
use std::test::Fail;

/// Which laws hold of a list of lines, each `y` or `n`.
fn verdict(alloc: Global, word: &str, lines: &str) -> Result<String, Fail> {
    let schema = schema_of(alloc, word)?;
    let history = history_of(alloc, &schema, lines)?;
    Ok(laws(alloc, &schema, &history)?)
}

/// Notes a row with other verdicts. It has its name, the file of its protocol and the verdicts; what
/// is broken; and then its lines.
fn check(alloc: Global, row: &str, wrong: &mut String) -> Result<(), Fail> {
    let (head, about) = row.split_once("\n").ok_or("a row of one line")?;
    let (name, given) = head.split_once(" ").ok_or("a row without its file")?;
    let (word, wanted) = given.split_once(" ").ok_or("a row without its verdicts")?;
    let (_, lines) = about.split_once("\n").ok_or("a row without lines")?;
    let found = verdict(alloc, word, lines)?;
    Ok(note(name, found.as_str(), wanted, wrong)?)
}

/// Returns the rows of a table with other verdicts, with the results, and the number of rows.
fn checked(alloc: Global, table: &str) -> Result<String, Fail> {
    let mut shown = String::new(alloc);
    let mut count = 0u32;
    for row in table.split("====\n") {
        check(alloc, row, &mut shown)?;
        count = count.wrapping_add(1);
    }
    write!(shown, "{count}")?;
    Ok(shown)
}

#[test]
fn verdicts(rt: HostRuntime) -> Result<(), Fail> {
    let alloc = rt.alloc();
    assert_eq!(rt; checked(alloc, PREFIX)?.as_str(), PREFIX_COUNT);
    assert_eq!(rt; checked(alloc, LIVING)?.as_str(), LIVING_COUNT);
    assert_eq!(rt; checked(alloc, WAITS)?.as_str(), WAITS_COUNT);
    assert_eq!(rt; checked(alloc, SETTLED)?.as_str(), SETTLED_COUNT);
    assert_eq!(rt; checked(alloc, FALLEN)?.as_str(), FALLEN_COUNT);
    assert_eq!(rt; checked(alloc, WHOLE)?.as_str(), WHOLE_COUNT);
    Ok(())
}

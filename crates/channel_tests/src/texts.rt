//! Tests of worked runs: their text, and the laws.
use super::given::{laws, note};
use super::run_rows::{RUNS, RUNS_COUNT};
use history::history_text;
use history_of_text::{history_of, schema_of};
use std::alloc::Global;
use std::test::Fail;

/// Notes a run that prints other lines than it printed, or of which some law does not hold.
fn check(alloc: Global, row: &str, wrong: &mut String) -> Result<(), Fail> {
    let (head, lines) = row.split_once("\n").ok_or("a row without lines")?;
    let (name, word) = head.split_once(" ").ok_or("a row without its file")?;
    let schema = schema_of(alloc, word)?;
    let history = history_of(alloc, &schema, lines)?;
    note(
        name,
        laws(alloc, &schema, &history)?.as_str(),
        "yyyyy",
        wrong,
    )?;
    let text = history_text(alloc, &schema, &history)?;
    Ok(note(name, str::from_utf8(text.as_slice())?, lines, wrong)?)
}

/// Returns the runs that are printed otherwise, and the number of runs.
fn checked(alloc: Global) -> Result<String, Fail> {
    let mut shown = String::new(alloc);
    let mut count = 0u32;
    for row in RUNS.split("====\n") {
        check(alloc, row, &mut shown)?;
        count = count.wrapping_add(1);
    }
    write!(shown, "{count}")?;
    Ok(shown)
}

/// Worked runs: their lines print as they were printed, and all laws hold of them.
#[test]
fn texts(rt: HostRuntime) -> Result<(), Fail> {
    assert_eq!(rt; checked(rt.alloc())?.as_str(), RUNS_COUNT);
    Ok(())
}

//! Worked runs: all laws hold of them, and so do order, effects and answers.
use super::given::{note, verdict};
use history_of_text::{history_of, schema_of};
use std::alloc::Global;
use std::test::Fail;
use worked_runs::{RUNS, row_of};

/// The lines of a run without the line of its ending.
pub fn lines_of(printed: &str) -> Option<&str> {
    let whole = printed.strip_suffix("\n")?;
    let (lines, _) = whole.rsplit_once("\n")?;
    Some(lines)
}

/// Notes a run of which some law or statement does not hold.
fn check(alloc: Global, text: &str, wrong: &mut String) -> Result<(), Fail> {
    let row = row_of(text).ok_or("a row of another form")?;
    let lines = lines_of(row.printed).ok_or("a run without lines")?;
    let schema = schema_of(alloc, row.file)?;
    let history = history_of(alloc, &schema, lines)?;
    let found = verdict(alloc, &schema, &history)?;
    Ok(note(row.name, found.as_str(), "yyyyy yyy", wrong)?)
}

/// Returns the runs of which some law or statement does not hold, and the number of runs.
fn checked(alloc: Global) -> Result<String, Fail> {
    let mut shown = String::new(alloc);
    let mut count = 0u32;
    for text in RUNS.split("====\n") {
        check(alloc, text, &mut shown)?;
        count = count.wrapping_add(1);
    }
    write!(shown, "{count}")?;
    Ok(shown)
}

#[test]
fn worked_runs_hold(rt: HostRuntime) -> Result<(), Fail> {
    assert_eq!(rt; checked(rt.alloc())?.as_str(), "22");
    Ok(())
}

//! Whole pictures of small histories.
use super::given::note;
use super::reader::fault_of;
use super::whole_rows::{HEAD, START, WHOLE, WHOLE_COUNT};
use charts::chart_text;
use history_of_text::{history_of, schema_of};
use ipdl_base::Side;
use std::alloc::{AllocError, Global};
use std::test::Fail;

/// Returns the side that a word names, if any.
fn side_of(word: &str) -> Option<Side> {
    match word {
        "parent" => Some(Side::Parent),
        "child" => Some(Side::Child),
        _ => None,
    }
}

/// Returns the picture of lines, of a run in which this side has the most events, if any.
fn picture(alloc: Global, lines: &str, spent: Option<Side>) -> Result<String, Fail> {
    let schema = schema_of(alloc, "PQ.ipdl")?;
    let history = history_of(alloc, &schema, lines)?;
    let chart = chart_text(alloc, &schema, history.lines(), spent)?;
    Ok(String::from_str(alloc, str::from_utf8(chart.as_slice())?)?)
}

/// Returns the whole picture of a row, by its height and what is drawn after its head.
fn wanted(alloc: Global, height: &str, drawn: &str) -> Result<String, AllocError> {
    format!(in alloc; "{START}{height}{HEAD}{drawn}")
}

/// Notes a row with another picture.
fn check(alloc: Global, row: &str, wrong: &mut String) -> Result<(), Fail> {
    let (head, rest) = row.split_once("\n").ok_or("a row of one line")?;
    let (name, side) = head.split_once(" ").ok_or("a row without its side")?;
    let (lines, rest) = rest.split_once("----\n").ok_or("a row without a picture")?;
    let (height, drawn) = rest.split_once("\n").ok_or("a picture without a height")?;
    let found = picture(alloc, lines, side_of(side))?;
    let wanted = wanted(alloc, height, drawn)?;
    note(name, fault_of(alloc, found.as_str())?, "", wrong)?;
    Ok(note(name, found.as_str(), wanted.as_str(), wrong)?)
}

/// Returns the rows with other pictures, and the number of rows.
fn checked(alloc: Global) -> Result<String, Fail> {
    let mut shown = String::new(alloc);
    let mut count = 0u32;
    for row in WHOLE.split("====\n") {
        check(alloc, row, &mut shown)?;
        count = count.wrapping_add(1);
    }
    write!(shown, "{count}")?;
    Ok(shown)
}

/// Small pictures, whole.
#[test]
fn small_pictures(rt: HostRuntime) -> Result<(), Fail> {
    assert_eq!(rt; checked(rt.alloc())?.as_str(), WHOLE_COUNT);
    Ok(())
}

//! The marks of rows, with their places.
use super::given::{between, note, picture};
use super::mark_rows::{MARKS, MARKS_COUNT};
use history_of_text::schema_of;
use std::alloc::{AllocError, Global};
use std::test::Fail;

/// Appends a mark, or nothing for what is no mark.
fn push_mark(piece: &str, out: &mut String) -> Result<(), AllocError> {
    let class = between(piece, " class=\"", "\"").unwrap_or("");
    if let Some(points) = between(piece, " d=\"", "\"") {
        let head = if piece.contains(" marker-end=\"url(#head)\"") {
            " head"
        } else {
            ""
        };
        return writeln!(out, "{class} {points}{head}");
    }
    if !piece.starts_with("rect ") {
        return Ok(());
    }
    let x = between(piece, " x=\"", "\"").unwrap_or("");
    let y = between(piece, " y=\"", "\"").unwrap_or("");
    let height = between(piece, " height=\"", "\"").unwrap_or("");
    writeln!(out, "{class} {x} {y} {height}")
}

/// Returns the marks of all rows of a picture.
fn marks_of(alloc: Global, chart: &str) -> Result<String, AllocError> {
    let mut marks = String::new(alloc);
    let (_, rows) = chart.split_once("<g>").unwrap_or(("", ""));
    for piece in rows.split("<") {
        push_mark(piece, &mut marks)?;
    }
    Ok(marks)
}

/// Notes a history with other marks.
fn check(alloc: Global, row: &str, wrong: &mut String) -> Result<(), Fail> {
    let (head, rest) = row.split_once("\n").ok_or("a row of one line")?;
    let (name, word) = head.split_once(" ").ok_or("a row without its file")?;
    let (lines, wanted) = rest.split_once("----\n").ok_or("a row without marks")?;
    let schema = schema_of(alloc, word)?;
    let chart = picture(alloc, &schema, lines)?;
    let found = marks_of(alloc, chart.as_str())?;
    Ok(note(name, found.as_str(), wanted, wrong)?)
}

/// Returns the histories with other marks, and the number of rows.
fn checked(alloc: Global) -> Result<String, Fail> {
    let mut shown = String::new(alloc);
    let mut count = 0u32;
    for row in MARKS.split("====\n") {
        check(alloc, row, &mut shown)?;
        count = count.wrapping_add(1);
    }
    write!(shown, "{count}")?;
    Ok(shown)
}

/// Each mark is where the rules of docs/chart.md place it.
#[test]
fn marks_are_placed(rt: HostRuntime) -> Result<(), Fail> {
    assert_eq!(rt; checked(rt.alloc())?.as_str(), MARKS_COUNT);
    Ok(())
}

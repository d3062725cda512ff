//! The labels of rows: their side, their color and their words.
ghost use Rattle.ipdl_base.specs.Sound.{IsSound};

use super::given::{label, note, picture};
use super::label_rows::{LABELS, LABELS_COUNT};
use history_of_text::schema_of;
use ipdl_base::Schema;
use std::alloc::Global;
use std::test::Fail;

/// Returns the side of the page of a label of the first row.
fn side_of(style: &str) -> &'static str {
    if style.starts_with("text-anchor=\"end\"") && style.ends_with(" x=\"545\" y=\"74\"") {
        "left"
    } else if style.starts_with("text-anchor=\"start\"") && style.ends_with(" x=\"855\" y=\"74\"") {
        "right"
    } else {
        "elsewhere"
    }
}

/// Returns how a label is colored.
fn tone_of(style: &str) -> &'static str {
    if style.contains(" class=\"trouble\" fill=") {
        "trouble"
    } else if style.contains(" opacity=") {
        "effect"
    } else {
        "plain"
    }
}

/// Notes a line with another label.
fn check(alloc: Global, schema: &Schema, row: &str, wrong: &mut String) -> Result<(), Fail>
    requires { IsSound schema.now }
{
    let (line, wanted) = row.split_once(" | ").ok_or("a row of another form")?;
    let chart = picture(alloc, schema, line)?;
    let (style, words) = label(chart.as_str()).ok_or("no label")?;
    let side = side_of(style);
    let tone = tone_of(style);
    let found = format!(in alloc; "{side} {tone} {words}")?;
    Ok(note(line, found.as_str(), wanted, wrong)?)
}

/// Returns the lines with another label, and the number of rows.
fn checked(alloc: Global) -> Result<String, Fail> {
    let schema = schema_of(alloc, "PHub.ipdl")?;
    let mut shown = String::new(alloc);
    let mut count = 0u32;
    for row in LABELS.lines() {
        check(alloc, &schema, row, &mut shown)?;
        count = count.wrapping_add(1);
    }
    write!(shown, "{count}")?;
    Ok(shown)
}

/// Each form of line has its label.
#[test]
fn lines_have_labels(rt: HostRuntime) -> Result<(), Fail> {
    assert_eq!(rt; checked(rt.alloc())?.as_str(), LABELS_COUNT);
    Ok(())
}

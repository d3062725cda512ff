//! Which characters a picture shows of bytes, and where it cuts values.
ghost use Rattle.std.specs.Prelude.{IfOk};
ghost use Rattle.ipdl_base.specs.Sound.{IsSound};

use super::cut_rows::{CUTS, CUTS_COUNT};
use super::given::{label, note, title};
use super::reader::fault_of;
use super::text_rows::{TEXTS, TEXTS_COUNT};
use charts::chart_text;
use history_of_text::message_of;
use ipdl_base::{Line, Name, Schema, Side, TOP_ID, Value, Values, What};
use memory_files::MemoryFiles;
use schema_of_text::schema_of;
use std::alloc::{AllocError, Global};
use std::test::Fail;

/// A protocol with a message that carries a text.
const PROTOCOL: &str = "protocol PText { parent: async Say(nsString s); };";

/// Returns the schema of the protocol.
fn schema(alloc: Global) -> Result<Schema, Fail>
    ensures { IfOk result IsSound }
{
    let name = String::from_str(alloc, "PText.ipdl")?;
    let text = Vec::from_slice(alloc, PROTOCOL.as_bytes())?;
    let mut files = Vec::new(alloc);
    files.push((name, text))?;
    schema_of(
        alloc,
        MemoryFiles::new(files, Vec::new(alloc)),
        "PText.ipdl",
    )
}

/// Returns the bytes that digits spell, two for each, or none at `-`.
fn bytes_of(alloc: Global, digits: &str) -> Result<Vec<u8>, Fail> {
    let mut bytes = Vec::new(alloc);
    if digits == "-" {
        return Ok(bytes);
    }
    for pair in digits.as_bytes().chunks(2) {
        bytes.push(u8::from_str_radix(str::from_utf8(pair)?, 16)?)?;
    }
    Ok(bytes)
}

/// Returns the values that are one text.
fn one_text(alloc: Global, bytes: &[u8]) -> Result<Values, AllocError> {
    let text = Value::Text(Name::from_slice(alloc, bytes)?);
    Ok(Values::First(Box::new(alloc, text)?, Box::new(alloc, Values::Nothing)?))
}

/// Returns a line with these bytes: a send of a text, or a name for an actor.
fn line_of(alloc: Global, schema: &Schema, kind: &str, bytes: &[u8]) -> Result<Line, Fail> {
    let what = if kind == "name" {
        What::Let(Name::from_slice(alloc, bytes)?, 4)
    } else {
        What::Send(
            -1,
            TOP_ID,
            message_of(schema, "PText.Say")?,
            one_text(alloc, bytes)?,
        )
    };
    Ok(Line {
        side: Side::Child,
        what,
    })
}

/// Returns the picture of a line with these bytes.
fn picture(alloc: Global, schema: &Schema, kind: &str, bytes: &[u8]) -> Result<String, Fail>
    requires { IsSound schema.now }
{
    let line = line_of(alloc, schema, kind, bytes)?;
    let chart = chart_text(alloc, schema, &[line], None)?;
    Ok(String::from_str(alloc, str::from_utf8(chart.as_slice())?)?)
}

/// Notes a row with another title, or whose picture is no document.
fn check_text(alloc: Global, schema: &Schema, row: &str, wrong: &mut String) -> Result<(), Fail>
    requires { IsSound schema.now }
{
    let (head, wanted) = row.split_once(" | ").ok_or("a row of another form")?;
    let (kind, digits) = head.split_once(" ").ok_or("a row without bytes")?;
    let bytes = bytes_of(alloc, digits)?;
    let chart = picture(alloc, schema, kind, bytes.as_slice())?;
    note(head, fault_of(alloc, chart.as_str())?, "", wrong)?;
    let found = title(chart.as_str()).ok_or("no title")?;
    Ok(note(head, found, wanted, wrong)?)
}

/// Returns the rows of texts with another title, and the number of rows.
fn checked_texts(alloc: Global) -> Result<String, Fail> {
    let schema = schema(alloc)?;
    let mut shown = String::new(alloc);
    let mut count = 0u32;
    for row in TEXTS.lines() {
        check_text(alloc, &schema, row, &mut shown)?;
        count = count.wrapping_add(1);
    }
    write!(shown, "{count}")?;
    Ok(shown)
}

/// Returns the bytes of a row, which repeats some of them.
fn repeated(alloc: Global, head: &str) -> Result<Vec<u8>, Fail> {
    let (times, digits) = head.split_once(" ").ok_or("a row without bytes")?;
    let times = times.parse::<usize>()?;
    let bytes = bytes_of(alloc, digits)?;
    if times > 1000 || bytes.len() > 1000 {
        return Err("too much".into());
    }
    Ok(bytes.repeat(alloc, times)?)
}

/// Notes a row with another label or another title.
fn check_cut(alloc: Global, schema: &Schema, row: &str, wrong: &mut String) -> Result<(), Fail>
    requires { IsSound schema.now }
{
    let (head, shown) = row.split_once("\n").ok_or("a row without a label")?;
    let (wanted, whole) = shown.split_once("\n").ok_or("a row without a title")?;
    let bytes = repeated(alloc, head)?;
    let chart = picture(alloc, schema, "value", bytes.as_slice())?;
    let (_, found) = label(chart.as_str()).ok_or("no label")?;
    note(head, found, wanted, wrong)?;
    let found = title(chart.as_str()).ok_or("no title")?;
    Ok(note(head, found, whole.trim(), wrong)?)
}

/// Returns the rows of cuts with another label or title, and the number of rows.
fn checked_cuts(alloc: Global) -> Result<String, Fail> {
    let schema = schema(alloc)?;
    let mut shown = String::new(alloc);
    let mut count = 0u32;
    for row in CUTS.split("====\n") {
        check_cut(alloc, &schema, row, &mut shown)?;
        count = count.wrapping_add(1);
    }
    write!(shown, "{count}")?;
    Ok(shown)
}

/// Bytes are shown as characters that XML takes.
#[test]
fn bytes_are_shown(rt: HostRuntime) -> Result<(), Fail> {
    assert_eq!(rt; checked_texts(rt.alloc())?.as_str(), TEXTS_COUNT);
    Ok(())
}

/// Values are cut after 40 characters in the label, and never in the title.
#[test]
fn values_are_cut(rt: HostRuntime) -> Result<(), Fail> {
    assert_eq!(rt; checked_cuts(rt.alloc())?.as_str(), CUTS_COUNT);
    Ok(())
}

//! The reader of the tests refuses what is no document.
use super::document_rows::{DOCUMENTS, DOCUMENTS_COUNT};
use super::given::{note, picture};
use super::reader::fault_of;
use history_of_text::schema_of;
use std::alloc::Global;
use std::test::Fail;

/// Notes a document of which the reader finds another fault.
fn check(alloc: Global, row: &str, wrong: &mut String) -> Result<(), Fail> {
    let (text, wanted) = row.rsplit_once(" | ").ok_or("a row of another form")?;
    let fault = fault_of(alloc, text)?;
    let found = if fault.is_empty() { "well" } else { fault };
    Ok(note(text, found, wanted, wrong)?)
}

/// Returns the documents of which the reader finds another fault, and the number of rows.
fn checked(alloc: Global) -> Result<String, Fail> {
    let mut shown = String::new(alloc);
    let mut count = 0u32;
    for row in DOCUMENTS.lines() {
        check(alloc, row, &mut shown)?;
        count = count.wrapping_add(1);
    }
    write!(shown, "{count}")?;
    Ok(shown)
}

/// Lines whose picture has each tag.
const LINES: &str = "parent call 1/1 to 2147483647 PW.CallC()
child deliver request 1
child take 1 at 2147483647 PW.CallC()
child close
  fall 2147483647 NormalShutdown
parent deliver goodbye
";

/// Returns whether a byte belongs to a tag, by the byte before it and the one after it.
fn is_mark(before: u8, byte: u8, after: u8) -> bool {
    matches!(byte, b'<' | b'>' | b'"') || byte == b'/' && (before == b'<' || after == b'>')
}

/// Returns whether a text without the byte at a place is a document.
fn is_without(alloc: Global, text: &str, at: usize) -> Result<bool, Fail> {
    let bytes = text.as_bytes();
    let mut rest = Vec::from_slice(alloc, bytes.get(..at).unwrap_or(&[]))?;
    rest.extend_from_slice(bytes.get(at.wrapping_add(1)..).unwrap_or(&[]))?;
    let fault = fault_of(alloc, str::from_utf8(rest.as_slice())?)?;
    Ok(fault.is_empty())
}

/// Counts the marks of a picture, and those without which it is still a document.
fn cut_marks(alloc: Global, chart: &str) -> Result<(u32, u32), Fail> {
    let mut counts = (0u32, 0u32);
    for (at, three) in chart.as_bytes().windows(3).enumerate() {
        if let [before, byte, after] = three {
            if is_mark(*before, *byte, *after) {
                counts.0 = counts.0.wrapping_add(1);
                if is_without(alloc, chart, at.wrapping_add(1))? {
                    counts.1 = counts.1.wrapping_add(1);
                }
            }
        }
    }
    Ok(counts)
}

/// Returns whether a picture has many marks, and how many of them the reader does not miss.
fn cut_picture(alloc: Global) -> Result<String, Fail> {
    let schema = schema_of(alloc, "PW.ipdl")?;
    let chart = picture(alloc, &schema, LINES)?;
    let (marks, missed) = cut_marks(alloc, chart.as_str())?;
    let many = marks > 200;
    Ok(format!(in alloc; "{many} {missed}")?)
}

/// A picture without one of the marks of its tags is no document.
#[test]
fn each_mark_is_needed(rt: HostRuntime) -> Result<(), Fail> {
    assert_eq!(rt; cut_picture(rt.alloc())?.as_str(), "true 0");
    Ok(())
}

/// Each kind of fault is found.
#[test]
fn reader_finds_faults(rt: HostRuntime) -> Result<(), Fail> {
    assert_eq!(rt; checked(rt.alloc())?.as_str(), DOCUMENTS_COUNT);
    Ok(())
}

//! Lists of lines with the verdict of each law and statement.
use super::given::{note, verdict};
use super::order_rows::{ORDER, ORDER_COUNT, SILENT, SILENT_COUNT};
use history_of_text::{history_of, schema_of};
use std::alloc::Global;
use std::test::Fail;

/// Notes a row with other verdicts. It has its name, the file of its protocol and the verdicts; what is false; and then its
/// lines.
fn check(alloc: Global, row: &str, wrong: &mut String) -> Result<(), Fail> {
    let (head, about) = row.split_once("\n").ok_or("a row of one line")?;
    let (name, given) = head.split_once(" ").ok_or("a row without its file")?;
    let (word, wanted) = given.split_once(" ").ok_or("a row without its verdicts")?;
    let (_, lines) = about.split_once("\n").ok_or("a row without lines")?;
    let schema = schema_of(alloc, word)?;
    let history = history_of(alloc, &schema, lines)?;
    let found = verdict(alloc, &schema, &history)?;
    Ok(note(name, found.as_str(), wanted, wrong)?)
}

/// Returns the rows of a table with other verdicts, with the results, and the number of rows.
fn checked(alloc: Global, table: &str) -> Result<String, Fail> {
    let mut shown = String::new(alloc);
    let mut count = 0u32;
    for row in table.split("====\n") {
        check(alloc, row, &mut shown)?;
        count = count.wrapping_add(1);
    }
    write!(shown, "{count}")?;
    Ok(shown)
}

/// Lists that are false in one clause, and lists that no clause excludes.
#[test]
fn verdicts(rt: HostRuntime) -> Result<(), Fail> {
    let alloc = rt.alloc();
    assert_eq!(rt; checked(alloc, ORDER)?.as_str(), ORDER_COUNT);
    assert_eq!(rt; checked(alloc, SILENT)?.as_str(), SILENT_COUNT);
    Ok(())
}

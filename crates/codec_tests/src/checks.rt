//! Checks of rows.
use std::process::Abort;

/// Asserts that what is found is what is expected, and names the row otherwise.
pub fn check(rt: &impl Abort, row: &str, found: &str, wanted: &str) {
    assert_eq!(rt; found, wanted, "{row}");
}

/// Asserts that a text has this number of lines.
pub fn check_count(rt: &impl Abort, rows: &str, wanted: u32) {
    let mut count = 0u32;
    for _ in rows.split("\n") {
        count = count.wrapping_add(1);
    }
    assert!(rt; count == wanted, "{count} rows");
}

/// Splits a text at the first of these marks.
pub fn cut<'t>(text: &'t str, mark: &str) -> (&'t str, &'t str) {
    text.split_once(mark).unwrap_or((text, ""))
}

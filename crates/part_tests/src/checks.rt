//! Comparisons, and texts in parts.
use std::process::Abort;

/// Compares the result with the expected one, and names the row if they differ.
pub fn check(rt: &impl Abort, row: &str, found: &str, wanted: &str) {
    assert_eq!(rt; found, wanted, "{row}");
}

/// Returns a text up to the first of these, and the rest.
pub fn cut<'t>(text: &'t str, mark: &str) -> (&'t str, &'t str) {
    text.split_once(mark).unwrap_or((text, ""))
}

//! Helpers that compare results with expected texts.

use std::process::Abort;

/// Compares a result with the expected text, and reports the row if they differ.
pub fn check(rt: &impl Abort, row: &str, found: &str, wanted: &str) {
    assert_eq!(rt; found, wanted, "{row}");
}

/// Returns the parts of a text before and after the first `mark`.
pub fn cut<'t>(text: &'t str, mark: &str) -> (&'t str, &'t str) {
    text.split_once(mark).unwrap_or((text, ""))
}

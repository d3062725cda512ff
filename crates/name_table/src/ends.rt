//! Marks on the ends of the texts in a table, by which most texts that are not in it are found
//! absent at once.

ghost use Rattle.std.specs.Prelude.{◌≡◌, ◌≤◌, ℕ, length, true, slice_index_or, IfOk};
ghost use Rattle.name_table.specs.Ends.{ends_of, AreEnds};

use crate::rows::Rows;
use std::alloc::{AllocError, Global};

/// The number of sums of two bytes.
const SUMS: usize = 511;

/// Returns the sum of the first and the last byte of a text. Few texts share it.
fn ends_of(text: &[u8]) -> usize
    ensures { result ≡ ends_of text.now }
{
    if text.is_empty() {
        0
    } else {
        text[0] as usize + text[text.len() - 1] as usize
    }
}

/// Returns whether the ends of a text are marked, or beyond the marks.
pub fn has_ends(marks: &[bool], text: &[u8]) -> bool
    ensures { result ≡ slice_index_or marks.now (ends_of text.now) true }
{
    match marks.get(ends_of(text)) {
        Some(mark) => *mark,
        None => true,
    }
}

/// Marks the ends of a text.
fn mark_ends(text: &[u8], marks: &mut Vec<bool>)
    ensures marked { slice_index_or marks.new.items (ends_of text.now) true ≡ true }
    ensures kept { (n : ℕ) → slice_index_or marks.old.items n true ≡ true → slice_index_or marks.new.items n true ≡ true }
{
    let at = ends_of(text);
    if at < marks.len() {
        marks[at] = true;
    }
}

/// Returns marks on the ends of the texts that have a row.
pub fn ends(alloc: Global, rows: &Rows<'_>) -> Result<Vec<bool>, AllocError>
    ensures { IfOk result (λ marks. AreEnds rows.now marks.items) }
{
    let mut marks = Vec::from_elem(alloc, false, SUMS)?;
    for index in 0..rows.len() {
        let Some((text, _)) = rows.get_index(index) else {
            unreachable!()
        };
        mark_ends(text, &mut marks);
    }
    Ok(marks)
}

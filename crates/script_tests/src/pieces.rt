//! Texts made of repeated pieces.

use std::alloc::{AllocError, Global};

/// A text in pieces: its start, a piece that is repeated, its middle, another piece that is repeated as
/// often, and its end.
pub type Pieces = [&'static str; 5];

/// Appends a piece `count` times.
fn push_times(piece: &str, count: u32, text: &mut Vec<u8>) -> Result<(), AllocError> {
    for _ in 0..count {
        text.extend_from_slice(piece.as_bytes())?;
    }
    Ok(())
}

/// Returns the text of these pieces.
pub fn joined(alloc: Global, pieces: Pieces, count: u32) -> Result<Vec<u8>, AllocError> {
    let [begin, open, middle, close, end] = pieces;
    let mut text = Vec::from_slice(alloc, begin.as_bytes())?;
    push_times(open, count, &mut text)?;
    text.extend_from_slice(middle.as_bytes())?;
    push_times(close, count, &mut text)?;
    text.extend_from_slice(end.as_bytes())?;
    Ok(text)
}

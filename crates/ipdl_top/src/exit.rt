//! What is kept until the process ends.
use std::mem::forget;

/// Keeps a value until the process ends, which is right after the command. The process gives all of its memory back at once, so
/// the value is not destroyed piece by piece.
pub fn keep_until_exit<T: Drop>(value: T) {
    forget(value);
}

//! Comparisons, and bytes as texts.
use std::alloc::Global;
use std::process::Abort;
use std::test::Fail;

/// Compares the result with the expected one, and names the row if they differ.
pub fn check(rt: &impl Abort, row: &str, found: &str, wanted: &str) {
    assert_eq!(rt; found, wanted, "{row}");
}

/// The bytes that pairs of hexadecimal digits spell.
pub fn bytes_of(alloc: Global, digits: &str) -> Result<Vec<u8>, Fail> {
    let mut bytes = Vec::new(alloc);
    let mut high = None;
    for c in digits.chars() {
        if let Some(digit) = c.to_digit(16) {
            let digit = u8::try_from(digit)?;
            match high {
                None => high = Some(digit),
                Some(first) => {
                    bytes.push((first & 15) << 4 | (digit & 15))?;
                    high = None;
                }
            }
        }
    }
    Ok(bytes)
}

/// Bytes as pairs of hexadecimal digits.
pub fn digits_of(alloc: Global, bytes: &[u8]) -> Result<String, Fail> {
    let mut text = String::new(alloc);
    for byte in bytes {
        write!(text, "{byte:02x}")?;
    }
    Ok(text)
}

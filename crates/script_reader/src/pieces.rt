//! Classes of bytes, and bytes by their spelling in quotes.

ghost use Rattle.std.specs.Prelude.{◌≡◌, ◌<◌, length, IfSome};
ghost use Rattle.std.specs.Option.{option_map};
ghost use Rattle.ipdl_base.specs.Words.{is_word_start, is_word_byte};
ghost use Rattle.script_reader.specs.Tokens as tokens;

/// Returns whether the byte is a space, a tab or a carriage return.
pub fn is_blank(b: u8) -> bool
    ensures { result ≡ tokens.is_blank b }
{
    b" \t\r".contains(&b)
}

/// Returns whether the byte is a mark.
pub fn is_mark(b: u8) -> bool
    ensures { result ≡ tokens.is_mark b }
{
    b"(){}[],.".contains(&b)
}

/// Returns whether the byte is a decimal digit.
pub fn is_digit(b: u8) -> bool
    ensures { result ≡ tokens.is_digit b }
{
    b.is_ascii_digit()
}

/// Returns whether a word may begin with the byte.
pub fn is_word_start(b: u8) -> bool
    ensures { result ≡ is_word_start b }
{
    b.is_ascii_alphabetic() || b == b'_'
}

/// Returns whether a word may contain the byte.
pub fn is_word_byte(b: u8) -> bool
    ensures { result ≡ is_word_byte b }
{
    is_word_start(b) || b.is_ascii_digit()
}

/// Returns the value of a hexadecimal digit.
fn hex_value(b: u8) -> Option<u8>
    ensures value { result ≡ tokens.hex_value b }
    ensures below { IfSome result (λ value. value < 16) }
{
    match b {
        b'0'..=b'9' => Some(b - b'0'),
        b'a'..=b'f' => Some(b - b'a' + 10),
        b'A'..=b'F' => Some(b - b'A' + 10),
        _ => None,
    }
}

/// Returns the byte that two hexadecimal digits spell.
fn hex_byte(high: u8, low: u8) -> Option<u8>
    ensures { result ≡ tokens.hex_byte high low }
{
    let high = hex_value(high)?;
    let low = hex_value(low)?;
    Some(16 * high + low)
}

/// Returns the byte that two hexadecimal digits at the start of a text spell, and the rest after them.
pub fn hex_at(text: &[u8]) -> Option<(u8, &[u8])>
    ensures found { option_map (λ found. (found.0, found.1.now)) result ≡ tokens.hex_at text.now }
    ensures less { IfSome result (λ found. length found.1.now < length text.now) }
{
    match text {
        [high, low, rest @ ..] => {
            let byte = hex_byte(*high, *low)?;
            Some((byte, rest))
        }
        _ => None,
    }
}

/// Returns the byte that a letter after a backslash represents.
fn escape(b: u8) -> Option<u8>
    ensures { result ≡ tokens.escape b }
{
    match b {
        b'"' => Some(b'"'),
        b'\\' => Some(b'\\'),
        b'n' => Some(b'\n'),
        b't' => Some(b'\t'),
        _ => None,
    }
}

/// Returns the byte that is spelled after a backslash, and the rest after its spelling.
fn escaped_at(text: &[u8]) -> Option<(u8, &[u8])>
    ensures found { option_map (λ found. (found.0, found.1.now)) result ≡ tokens.escaped_at text.now }
    ensures less { IfSome result (λ found. length found.1.now < length text.now) }
{
    match text.split_first()? {
        (b'x', rest) => hex_at(rest).filter(|found| found.0 < 128),
        (b, rest) => escape(*b).map(|c| (c, rest)),
    }
}

/// Returns the first byte of a text between quotes, and the rest after its spelling.
pub fn character_at(text: &[u8]) -> Option<(u8, &[u8])>
    ensures found { option_map (λ found. (found.0, found.1.now)) result ≡ tokens.character_at text.now }
    ensures less { IfSome result (λ found. length found.1.now < length text.now) }
{
    match text.split_first()? {
        (b'"', _) => None,
        (b'\\', rest) => escaped_at(rest),
        (b, rest) => Some((*b, rest)),
    }
}

//! The kind of a single line of a sync list.

ghost use Rattle.std.specs.Prelude.{◌≡◌, ◌↔◌, ◌⊎◌, ℕ, List, IsTrue, IfSome, IfNone, not, position};
ghost use Rattle.std.specs.List.{list_all};
ghost use Rattle.ipdl_base.specs.Words.{is_word, is_word_start, is_word_byte};
ghost use Rattle.ipdl_lex.specs.Pieces.{is_blank};
ghost use Rattle.sync_list.specs.Lines.{first_mark, IsIdentifier, IsSectionLine, IsValueLine};
ghost use Rattle.sync_list.specs.Reading.{IsSplit, IsLine};

use ipdl_lex::is_reserved;

/// The kind of a line of a sync list, by its own bytes alone.
pub enum ListLine<'a> {
    /// A line of blanks, or an empty line.
    Blank,
    /// A comment.
    Comment,
    /// A section line, with the names of its protocol and its message.
    Section(&'a [u8], &'a [u8]),
    /// A value line, with its word and its value.
    Value(&'a [u8], &'a [u8]),
    /// An indented line, which can continue a value.
    Indented,
    /// Any other line.
    Other,
}

fn is_blank(b: u8) -> bool
    ensures { result ≡ is_blank b }
{
    b" \t\r\n".contains(&b)
}

fn is_word_start(b: u8) -> bool
    ensures { result ≡ is_word_start b }
{
    b.is_ascii_alphabetic() || b == b'_'
}

fn is_word_byte(b: u8) -> bool
    ensures { result ≡ is_word_byte b }
{
    is_word_start(b) || b.is_ascii_digit()
}

/// Returns whether each byte is blank.
pub fn are_blanks(bytes: &[u8]) -> bool
    ensures { result ≡ list_all is_blank bytes.now }
{
    bytes.iter().all(|b| is_blank(*b))
}

/// Returns whether a word may contain each byte.
fn are_word_bytes(bytes: &[u8]) -> bool
    ensures { result ≡ list_all is_word_byte bytes.now }
{
    bytes.iter().all(|b| is_word_byte(*b))
}

fn is_word(bytes: &[u8]) -> bool
    ensures { result ≡ is_word bytes.now }
{
    match bytes.split_first() {
        Some((first, others)) => is_word_start(*first) && are_word_bytes(others),
        None => false,
    }
}

fn is_identifier(bytes: &[u8]) -> bool
    ensures { IsTrue result ↔ IsIdentifier bytes.now }
{
    is_word(bytes) && !is_reserved(bytes)
}

/// Returns the first byte that is not blank, or `None`.
fn first_mark(line: &[u8]) -> Option<u8>
    ensures { result ≡ first_mark line.now }
{
    line.iter().copied().find(|b| !is_blank(*b))
}

/// Returns the index of the first byte that no word may contain, or `None`.
fn word_end(text: &[u8]) -> Option<usize>
    ensures { result ≡ position (λ b. not (is_word_byte b)) text.now }
{
    text.iter().position(|b| !is_word_byte(*b))
}

/// Returns the index of the first byte that is not blank, or `None`.
fn blanks_end(text: &[u8]) -> Option<usize>
    ensures { result ≡ position (λ b. not (is_blank b)) text.now }
{
    text.iter().position(|b| !is_blank(*b))
}

/// Splits a text after the word bytes that it begins with.
fn split_word(text: &[u8]) -> (&[u8], &[u8])
    ensures { IsSplit is_word_byte text.now result.0.now result.1.now }
{
    text.split_at(word_end(text).unwrap_or(text.len()))
}

/// Splits a text after the blanks that it begins with.
fn split_blanks(text: &[u8]) -> (&[u8], &[u8])
    ensures { IsSplit is_blank text.now result.0.now result.1.now }
{
    text.split_at(blanks_end(text).unwrap_or(text.len()))
}

/// Returns the names of the protocol and the message of a section line, or `None` for any other line.
fn section_line(line: &[u8]) -> Option<(&[u8], &[u8])>
    ensures some { IfSome result (λ names. IsSectionLine line.now names.0.now names.1.now) }
    ensures none { IfNone result ((protocol message : List ℕ) → ¬ IsSectionLine line.now protocol message) }
{
    let rest = line.strip_prefix(b"[")?;
    let (protocol, rest) = split_word(rest);
    let rest = rest.strip_prefix(b"::")?;
    let (message, rest) = split_word(rest);
    let after = rest.strip_prefix(b"]")?;
    if is_identifier(protocol) && is_identifier(message) && are_blanks(after) {
        Some((protocol, message))
    } else {
        None
    }
}

/// Returns whether the byte may separate a word and its value.
fn is_sign(b: u8) -> bool
    ensures { IsTrue result ↔ ((b ≡ 61) ⊎ (b ≡ 58)) }
{
    b == b'=' || b == b':'
}

/// Returns the word and the value of a value line, or `None` for any other line.
fn value_line(line: &[u8]) -> Option<(&[u8], &[u8])>
    ensures some { IfSome result (λ parts. IsValueLine line.now parts.0.now parts.1.now) }
    ensures none { IfNone result ((word value : List ℕ) → ¬ IsValueLine line.now word value) }
{
    let (word, rest) = split_word(line);
    let (_, rest) = split_blanks(rest);
    let (sign, value) = rest.split_first()?;
    if is_word(word) && is_sign(*sign) {
        Some((word, value))
    } else {
        None
    }
}

/// Returns the kind of a line of a sync list, by its own bytes alone.
pub fn line_of(line: &[u8]) -> ListLine<'_>
    ensures { IsLine line.now result }
{
    let Some(mark) = first_mark(line) else {
        return ListLine::Blank;
    };
    if mark == b'#' || mark == b';' {
        return ListLine::Comment;
    }
    if let Some((protocol, message)) = section_line(line) {
        return ListLine::Section(protocol, message);
    }
    if let Some((word, value)) = value_line(line) {
        return ListLine::Value(word, value);
    }
    if is_blank(line[0]) {
        ListLine::Indented
    } else {
        ListLine::Other
    }
}

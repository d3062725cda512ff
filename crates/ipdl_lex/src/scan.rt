//! Cuts a text into tokens, blanks and comments, from left to right.

ghost use Rattle.std.specs.Prelude.{◌≡◌, ◌↔◌, ℕ, ◌+◌, ◌<◌, ◌≤◌, ◌^◌, ◌-◌, ◌⊎◌, ◌++◌, Some, None, IsTrue, IfOk, IfErr, OnOk, IfSome, IfNone, Contains, map, not, length, position, List, Ok, Err, slice_index, take};
ghost use Rattle.std.specs.List.{list_any};
ghost use Rattle.std.specs.Str.{bytes_eq};
ghost use Rattle.ipdl_base.specs.declared.files.TheConstants.{MOST_BYTES};
ghost use Rattle.ipdl_base.specs.Words.{is_word_start, is_word_byte, IsWord};
ghost use Rattle.ipdl_lex.specs.Pieces.{is_blank, is_line_feed, is_mark, reserved_words, IsPieceOf, Spells};
ghost use Rattle.ipdl_lex.specs.Tokens.{FailsAt, IsShortOf, IsTokens, IsFault, Gives, token_at};
ghost use Rattle.ipdl_lex.specs.declared.token.LexedText.{LexedText};
ghost use Rattle.ipdl_lex.specs.declared.token.LexFault.{LexFault};
ghost use Rattle.ipdl_lex.specs.declared.token.LexFault.TheVariants.{NoMemory};
ghost use Rattle.ipdl_lex.specs.Scan.{reserved_of_length, class_of, ends_quoted, ClosesAt, IsFront, after_byte, after_bytes};

use crate::token::{LexFault, LexedText};
use ipdl_base::{Items, Place, Token, TokenKind};
use std::alloc::{AllocError, Global};

/// What a piece that begins with a byte may be.
#[derive(Clone, Copy)]
enum PieceClass {
    Blank,
    Slash,
    Quote,
    Mark,
    Letter,
    Other,
}

/// The piece that a text begins with: the kind of its token (`None` for a blank or a comment) and
/// its length in bytes.
#[derive(Clone, Copy)]
struct PieceFront {
    kind: Option<TokenKind>,
    len: usize,
}

/// The most bytes of a token.
const MAX_TOKEN_LEN: usize = 256;

/// The number of the first line of a file, and of the first column of a line.
const FIRST: u32 = 1;

fn is_blank(b: u8) -> bool
    ensures { result ≡ is_blank b }
{
    matches!(b, b' ' | b'\t' | b'\r' | b'\n')
}

fn is_word_start(b: u8) -> bool
    ensures { result ≡ is_word_start b }
{
    b.is_ascii_alphabetic() || b == b'_'
}

/// For each byte, whether a word may contain it.
const WORD_BYTES: [bool; 256] = [
    false, false, false, false, false, false, false, false, false, false, false, false, false,
    false, false, false, false, false, false, false, false, false, false, false, false, false,
    false, false, false, false, false, false, false, false, false, false, false, false, false,
    false, false, false, false, false, false, false, false, false, true, true, true, true, true,
    true, true, true, true, true, false, false, false, false, false, false, false, true, true,
    true, true, true, true, true, true, true, true, true, true, true, true, true, true, true, true,
    true, true, true, true, true, true, true, true, false, false, false, false, true, false, true,
    true, true, true, true, true, true, true, true, true, true, true, true, true, true, true, true,
    true, true, true, true, true, true, true, true, true, false, false, false, false, false, false,
    false, false, false, false, false, false, false, false, false, false, false, false, false,
    false, false, false, false, false, false, false, false, false, false, false, false, false,
    false, false, false, false, false, false, false, false, false, false, false, false, false,
    false, false, false, false, false, false, false, false, false, false, false, false, false,
    false, false, false, false, false, false, false, false, false, false, false, false, false,
    false, false, false, false, false, false, false, false, false, false, false, false, false,
    false, false, false, false, false, false, false, false, false, false, false, false, false,
    false, false, false, false, false, false, false, false, false, false, false, false, false,
    false, false, false, false, false, false, false, false, false, false, false, false, false,
    false, false, false, false, false, false, false, false, false, false,
];

fn is_word_byte(b: u8) -> bool
    ensures { result ≡ is_word_byte b }
{
    WORD_BYTES[b as usize]
}

fn is_mark(b: u8) -> bool
    ensures { result ≡ is_mark b }
{
    matches!(
        b,
        b'{' | b'}' | b'(' | b')' | b'[' | b']' | b'<' | b'>' | b';' | b',' | b':' | b'=' | b'?'
    )
}

/// Returns the reserved words of this length in bytes.
fn reserved_of_length(bytes: usize) -> &'static [&'static [u8]]
    ensures { map (λ w. w.now) result.now ≡ reserved_of_length bytes }
{
    match bytes {
        2 => &[b"or"],
        4 => &[b"both", b"from", b"sync"],
        5 => &[b"async", b"child", b"class", b"union", b"using"],
        6 => &[b"parent", b"struct"],
        7 => &[b"include", b"manager", b"manages", b"returns"],
        8 => &[b"nullable", b"protocol"],
        9 => &[b"namespace", b"UniquePtr"],
        _ => &[],
    }
}

fn is_among(words: &[&[u8]], word: &[u8]) -> bool
    ensures { result ≡ list_any (λ w. bytes_eq word.now w.now) words.now }
{
    words.iter().any(|other| word == *other)
}

/// Returns whether the word is a reserved word of the language (docs/tokens.md).
pub fn is_reserved(word: &[u8]) -> bool
    ensures { IsTrue result ↔ Contains reserved_words word.now }
{
    is_among(reserved_of_length(word.len()), word)
}

fn class_of(b: u8) -> PieceClass
    ensures { result ≡ class_of b }
{
    if is_word_start(b) {
        PieceClass::Letter
    } else if is_blank(b) {
        PieceClass::Blank
    } else if b == b'/' {
        PieceClass::Slash
    } else if b == b'"' {
        PieceClass::Quote
    } else if is_mark(b) {
        PieceClass::Mark
    } else {
        PieceClass::Other
    }
}

/// Returns the index of the first byte that no word may contain, or `None`.
fn word_end(text: &[u8]) -> Option<usize>
    ensures { result ≡ position (λ b. not (is_word_byte b)) text.now }
{
    text.iter().position(|b| !is_word_byte(*b))
}

/// Returns the index of the first line feed, or `None`.
fn line_end(text: &[u8]) -> Option<usize>
    ensures { result ≡ position is_line_feed text.now }
{
    text.iter().position(|b| *b == b'\n')
}

/// Returns the index of the first byte that ends a quoted text (a quote or a line feed), or `None`.
fn quoted_end(text: &[u8]) -> Option<usize>
    ensures { result ≡ position ends_quoted text.now }
{
    text.iter().position(|b| *b == b'"' || *b == b'\n')
}

/// Returns the index of the first `*/`, or `None`.
fn close_at(text: &[u8]) -> Option<usize>
    ensures found { IfSome result (λ n. ClosesAt text.now n) }
    ensures first { IfSome result (λ n. (k : ℕ) → k < n → ¬ ClosesAt text.now k) }
    ensures none { IfNone result ((k : ℕ) → ¬ ClosesAt text.now k) }
{
    for i in 1..text.len() {
        if text[i - 1] == b'*' && text[i] == b'/' {
            return Some(i - 1);
        }
    }
    None
}

/// Returns the kind of a word: reserved or not.
fn word_kind(word: &[u8]) -> TokenKind
    requires { IsWord word.now }
    ensures { Spells result word.now }
{
    if is_reserved(word) {
        TokenKind::Reserved
    } else {
        TokenKind::Word
    }
}

/// Reads the word that the text begins with.
fn word(text: &[u8]) -> PieceFront
    requires { class_of (slice_index text.now 0) ≡ PieceClass.Letter }
    ensures { IsFront text.now result.kind result.len }
{
    let len = word_end(text).unwrap_or(text.len());
    let kind = word_kind(&text[..len]);
    PieceFront {
        kind: Some(kind),
        len,
    }
}

/// Reads the comment that the text begins with.
fn comment(text: &[u8], here: Place) -> Result<PieceFront, LexFault>
    requires { class_of (slice_index text.now 0) ≡ PieceClass.Slash }
    ensures front { IfOk result (λ found. IsFront text.now found.kind found.len) }
    ensures fault { IfErr result (FailsAt text.now here) }
{
    if text.len() < 2 {
        return Err(LexFault::BadByte(here));
    }
    let inner = &text[2..];
    match text[1] {
        b'/' => {
            let len = line_end(inner).unwrap_or(inner.len());
            Ok(PieceFront {
                kind: None,
                len: 2 + len,
            })
        }
        b'*' => {
            let Some(close) = close_at(inner) else {
                return Err(LexFault::OpenComment(here));
            };
            Ok(PieceFront {
                kind: None,
                len: close + 4,
            })
        }
        _ => Err(LexFault::BadByte(here)),
    }
}

/// Reads the quoted text that the text begins with.
fn quoted(text: &[u8], here: Place) -> Result<PieceFront, LexFault>
    requires { class_of (slice_index text.now 0) ≡ PieceClass.Quote }
    ensures front { IfOk result (λ found. IsFront text.now found.kind found.len) }
    ensures fault { IfErr result (FailsAt text.now here) }
{
    let inner = &text[1..];
    let Some(end) = quoted_end(inner) else {
        return Err(LexFault::OpenString(here));
    };
    if inner[end] != b'"' {
        return Err(LexFault::OpenString(here));
    }
    Ok(PieceFront {
        kind: Some(TokenKind::Quoted),
        len: end + 2,
    })
}

/// Reads the mark that the text begins with.
fn mark(text: &[u8]) -> PieceFront
    requires { class_of (slice_index text.now 0) ≡ PieceClass.Mark }
    ensures { IsFront text.now result.kind result.len }
{
    PieceFront {
        kind: Some(TokenKind::Mark),
        len: if text.starts_with(b"::") { 2 } else { 1 },
    }
}

/// Reads the first piece of a text that begins at `here`.
fn front(text: &[u8], here: Place) -> Result<PieceFront, LexFault>
    requires { 0 < length text.now }
    ensures front { IfOk result (λ found. IsFront text.now found.kind found.len) }
    ensures fault { IfErr result (FailsAt text.now here) }
{
    match class_of(text[0]) {
        PieceClass::Blank => Ok(PieceFront { kind: None, len: 1 }),
        PieceClass::Slash => comment(text, here),
        PieceClass::Quote => quoted(text, here),
        PieceClass::Mark => Ok(mark(text)),
        PieceClass::Letter => Ok(word(text)),
        PieceClass::Other => Err(LexFault::BadByte(here)),
    }
}

/// Reads the first piece of a text. Fails if it is a token of more than 256 bytes.
fn short_front(text: &[u8], here: Place) -> Result<PieceFront, LexFault>
    requires { 0 < length text.now }
    ensures front { IfOk result (λ found. IsFront text.now found.kind found.len) }
    ensures short { IfOk result (λ found. IsShortOf found.kind (take found.len text.now)) }
    ensures fault { IfErr result (FailsAt text.now here) }
{
    let found = front(text, here)?;
    if found.kind.is_some() && found.len > MAX_TOKEN_LEN {
        return Err(LexFault::TooLong(here));
    }
    Ok(found)
}

/// Returns the place of the byte after this one.
fn after_byte(here: Place, b: u8) -> Place
    requires line { here.line < 2 ^ 32 - 1 }
    requires column { here.column < 2 ^ 32 - 1 }
    ensures { result ≡ after_byte here b }
{
    if b == b'\n' {
        Place {
            file: here.file,
            line: here.line + 1,
            column: FIRST,
        }
    } else {
        Place {
            file: here.file,
            line: here.line,
            column: here.column + 1,
        }
    }
}

/// Returns the place after these bytes.
fn after_bytes(here: Place, bytes: &[u8]) -> Place
    requires line { here.line + length bytes.now < 2 ^ 32 }
    requires column { here.column + length bytes.now < 2 ^ 32 }
    ensures { result ≡ after_bytes here bytes.now }
{
    let mut place = here;
    for b in bytes {
        place = after_byte(place, *b);
    }
    place
}

/// Returns the place after a piece. A token has no line feed, so its length is added to the column.
fn after_piece(here: Place, kind: Option<TokenKind>, bytes: &[u8]) -> Place
    requires piece { IsPieceOf kind bytes.now }
    requires line { here.line + length bytes.now < 2 ^ 32 }
    requires column { here.column + length bytes.now < 2 ^ 32 }
    ensures { result ≡ after_bytes here bytes.now }
{
    match kind {
        None => after_bytes(here, bytes),
        Some(_) => Place {
            file: here.file,
            line: here.line,
            column: here.column + bytes.len() as u32,
        },
    }
}

/// Adds the token of a piece to the list. A blank or a comment adds nothing.
fn keep<'t>(
    tokens: &mut Vec<Token<'t>>,
    kind: Option<TokenKind>,
    bytes: &'t [u8],
    place: Place,
) -> Result<(), AllocError>
    ensures { OnOk result (tokens.new.items ≡ tokens.old.items ++ token_at place kind bytes.now) }
{
    if let Some(kind) = kind {
        tokens.push(Token::new(kind, bytes, place))?;
    }
    Ok(())
}

/// Returns the tokens of a text, or its first fault.
fn scan(alloc: Global, text: &[u8], file: u32) -> Result<LexedText<'_>, LexFault>
    requires { length text.now ≤ MOST_BYTES }
    ensures tokens { IfOk result (IsTokens file text.now) }
    ensures fault { IfErr result (λ fault. (fault ≡ NoMemory) ⊎ IsFault file text.now fault) }
{
    let mut tokens = Vec::new(alloc);
    let mut rest = text;
    let mut here = Place {
        file,
        line: FIRST,
        column: FIRST,
    };
    while !rest.is_empty() {
        let found = short_front(rest, here)?;
        let (bytes, after) = rest.split_at(found.len);
        keep(&mut tokens, found.kind, bytes, here)?;
        here = after_piece(here, found.kind, bytes);
        rest = after;
    }
    Ok(LexedText {
        tokens: Items::from_vec(tokens),
        end: here,
    })
}

/// Returns the tokens of the text of the file with this number, and the place after its last byte
/// (docs/tokens.md). A fault is the first from the left. Its place is that of the first byte at
/// which no token, blank or comment begins, or that of the first token of more than 256 bytes.
pub fn lex(alloc: Global, text: &[u8], file: u32) -> Result<LexedText<'_>, LexFault>
    requires { length text.now ≤ MOST_BYTES }
    ensures tokens { IfOk result (IsTokens file text.now) }
    ensures fault { IfErr result (λ fault. (fault ≡ NoMemory) ⊎ IsFault file text.now fault) }

    // The result is the text's tokens or its fault, unless memory runs out.
    ensures only_tokens { (lexed : LexedText) → IsTokens file text.now lexed → Gives result (Ok lexed) }
    ensures only_fault { (fault : LexFault) → IsFault file text.now fault → Gives result (Err fault) }
{
    scan(alloc, text, file)
}

/// The law of one result: a text has at most one list of tokens, at most one fault, and never both.
pub fn one_answer()
    ensures tokens { (file : ℕ) (text : List ℕ) (a b : LexedText) → IsTokens file text a → IsTokens file text b → a ≡ b }
    ensures fault { (file : ℕ) (text : List ℕ) (a b : LexFault) → IsFault file text a → IsFault file text b → a ≡ b }
    ensures never_both { (file : ℕ) (text : List ℕ) (lexed : LexedText) (fault : LexFault) → IsTokens file text lexed → ¬ IsFault file text fault }
{}

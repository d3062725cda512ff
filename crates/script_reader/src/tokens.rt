//! Splits a line into tokens.

ghost use Rattle.std.specs.Prelude.{◌≡◌, ◌↔◌, ◌<◌, ◌≤◌, IsTrue, OnOk, ℕ, pos, ◌-ℤ◌, List, drop, length, IfOk, IfErr};
ghost use Rattle.std.specs.Str.{IsUtf8};
ghost use Rattle.script_reader.specs.Reading.{Refuses};
ghost use Rattle.script_reader.specs.Tokens as tokens;
ghost use Rattle.script_reader.specs.Tokens.{IsToken, IsTokenOf, AreTokens, IsNumber, InQuotes, character_at, max_count, beyond};
ghost use Rattle.script_reader.specs.declared.token.ScriptToken.{ScriptToken};

use crate::cursor::Cursor;
use crate::pieces::{is_digit, is_mark, is_word_start};
use crate::stop::ReadFailure;
use crate::token::{ScriptToken, TokenClass};
use ipdl_base::Name;
use std::alloc::{AllocError, Global};

/// The greatest number of a parameter, and the greatest index of a component.
const MAX_COUNT: u128 = 0xffff_ffff;

/// The size from which a number is outside every type.
const BEYOND: u128 = 0x1_0000_0000_0000_0000;

/// Returns the class of a token that begins with these bytes.
fn class_of(bytes: &[u8]) -> TokenClass
    ensures { result ≡ tokens.class_of bytes.now }
{
    match bytes {
        [] => TokenClass::Other,
        [b'h', b'"', ..] => TokenClass::Bytes,
        [b, ..] => {
            let b = *b;
            if is_word_start(b) {
                TokenClass::Word
            } else if b == b'$' {
                TokenClass::Param
            } else if b == b'@' {
                TokenClass::Index
            } else if b == b'-' {
                TokenClass::Negative
            } else if is_digit(b) {
                TokenClass::Number
            } else if b == b'"' {
                TokenClass::Text
            } else if is_mark(b) {
                TokenClass::Mark
            } else {
                TokenClass::Other
            }
        }
    }
}

/// Returns a name with these bytes.
fn name(alloc: Global, bytes: &[u8]) -> Result<Name, AllocError>
    ensures { IfOk result (λ name. name ≡ bytes.now) }
{
    Name::from_slice(alloc, bytes)
}

/// Reads the number of a parameter or component, after its first byte.
fn count(cursor: &mut Cursor) -> Result<u32, ReadFailure>
    requires { 0 < length cursor.old }
    ensures read { IfOk result (λ n. IsNumber max_count n (drop 1 cursor.old) cursor.new) }
    ensures stops { IfErr result (Refuses ((n : ℕ) (to : List ℕ) → ¬ IsNumber max_count n (drop 1 cursor.old) to)) }
    ensures less { OnOk result (length cursor.new < length cursor.old) }
{
    cursor.pass(1);
    Ok(cursor.number(MAX_COUNT)? as u32)
}

/// Reads a number.
fn number(cursor: &mut Cursor) -> Result<i128, ReadFailure>
    ensures read { IfOk result (λ z. (n : ℕ) × (z ≡ pos n) × IsNumber beyond n cursor.old cursor.new) }
    ensures stops { IfErr result (Refuses ((n : ℕ) (to : List ℕ) → ¬ IsNumber beyond n cursor.old to)) }
    ensures less { OnOk result (length cursor.new < length cursor.old) }
{
    Ok(cursor.number(BEYOND)? as i128)
}

/// Reads a number, after its `-`.
fn negative(cursor: &mut Cursor) -> Result<i128, ReadFailure>
    requires { 0 < length cursor.old }
    ensures read { IfOk result (λ z. (n : ℕ) × (z ≡ pos 0 -ℤ pos n) × IsNumber beyond n (drop 1 cursor.old) cursor.new) }
    ensures stops { IfErr result (Refuses ((n : ℕ) (to : List ℕ) → ¬ IsNumber beyond n (drop 1 cursor.old) to)) }
    ensures less { OnOk result (length cursor.new < length cursor.old) }
{
    cursor.pass(1);
    Ok(-number(cursor)?)
}

/// Returns whether the bytes are UTF-8.
fn is_utf8(bytes: &[u8]) -> bool
    ensures { IsTrue result ↔ IsUtf8 bytes.now }
{
    std::str::from_utf8(bytes).is_ok()
}

/// Reads a text, after its first quote.
fn text(alloc: Global, cursor: &mut Cursor) -> Result<Name, ReadFailure>
    requires { 0 < length cursor.old }
    ensures read { IfOk result (λ text. IsUtf8 text × InQuotes character_at text (drop 1 cursor.old) cursor.new) }
    ensures stops { IfErr result (Refuses ((text to : List ℕ) → IsUtf8 text → ¬ InQuotes character_at text (drop 1 cursor.old) to)) }
    ensures less { OnOk result (length cursor.new < length cursor.old) }
{
    cursor.pass(1);
    let text = cursor.text(alloc)?;
    if is_utf8(text.as_slice()) {
        Ok(text)
    } else {
        Err(ReadFailure::NoReading)
    }
}

/// Reads a token of a class.
fn token_of(
    alloc: Global,
    cursor: &mut Cursor,
    class: TokenClass,
) -> Result<ScriptToken, ReadFailure>
    requires { class ≡ tokens.class_of cursor.old }
    ensures read { IfOk result (λ t. IsTokenOf class t cursor.old cursor.new) }
    ensures stops { IfErr result (Refuses ((t : ScriptToken) (to : List ℕ) → ¬ IsTokenOf class t cursor.old to)) }
    ensures less { OnOk result (length cursor.new < length cursor.old) }
{
    match class {
        TokenClass::Word => Ok(ScriptToken::Word(name(alloc, cursor.word())?)),
        TokenClass::Param => Ok(ScriptToken::Param(count(cursor)?)),
        TokenClass::Index => Ok(ScriptToken::Index(count(cursor)?)),
        TokenClass::Negative => Ok(ScriptToken::Number(negative(cursor)?)),
        TokenClass::Number => Ok(ScriptToken::Number(number(cursor)?)),
        TokenClass::Text => Ok(ScriptToken::Text(text(alloc, cursor)?)),
        TokenClass::Bytes => {
            cursor.pass(2);
            Ok(ScriptToken::Bytes(cursor.bytes(alloc)?))
        }
        TokenClass::Mark => {
            let mark = cursor.rest()[0];
            cursor.pass(1);
            Ok(ScriptToken::Mark(mark))
        }
        TokenClass::Other => Err(ReadFailure::NoReading),
    }
}

/// Reads a token.
fn token(alloc: Global, cursor: &mut Cursor) -> Result<ScriptToken, ReadFailure>
    ensures read { IfOk result (λ t. IsToken t cursor.old cursor.new) }
    ensures stops { IfErr result (Refuses ((t : ScriptToken) (to : List ℕ) → ¬ IsToken t cursor.old to)) }
    ensures less { OnOk result (length cursor.new < length cursor.old) }
{
    let class = class_of(cursor.rest());
    token_of(alloc, cursor, class)
}

/// Splits a line into tokens.
pub fn tokens_of(alloc: Global, line: &[u8]) -> Result<Vec<ScriptToken>, ReadFailure>
    ensures read { IfOk result (λ tokens. AreTokens tokens.items line.now) }
    ensures stops { IfErr result (Refuses ((tokens : List ScriptToken) → ¬ AreTokens tokens line.now)) }
{
    let mut cursor = Cursor::new(line);
    let mut tokens = Vec::new(alloc);
    'tokens: while !cursor.is_blank() {
        cursor.pass_blanks();
        tokens.push(token(alloc, &mut cursor)?)?;
    }
    Ok(tokens)
}

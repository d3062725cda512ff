//! Tests of the tokens of a text.

use super::checks::{check, cut};
use super::token_rows::TOKEN_ROWS;
use ipdl_base::{Place, Token};
use ipdl_lex::{LexFault, LexedText, lex};
use std::alloc::Global;
use std::test::Fail;

/// Appends a token as a line.
fn push_token(out: &mut String, token: &Token<'_>) -> Result<(), Fail> {
    let kind = token.kind();
    let Place { line, column, .. } = token.place();
    let text = str::from_utf8(token.text())?;
    Ok(writeln!(out, "{line}:{column} {kind:?} {text}")?)
}

/// Returns the tokens and the end, one on each line.
fn tokens_text(alloc: Global, lexed: &LexedText<'_>) -> Result<String, Fail> {
    let mut out = String::new(alloc);
    for token in lexed.tokens.as_slice() {
        push_token(&mut out, token)?;
    }
    let Place { line, column, .. } = lexed.end;
    writeln!(out, "{line}:{column} end")?;
    Ok(out)
}

/// Returns a fault and its place as text.
fn fault_text(alloc: Global, fault: &LexFault) -> Result<String, Fail> {
    let (word, place) = match fault {
        LexFault::BadByte(place) => ("BadByte", place),
        LexFault::OpenComment(place) => ("OpenComment", place),
        LexFault::OpenString(place) => ("OpenString", place),
        LexFault::TooLong(place) => ("TooLong", place),
        LexFault::NoMemory => return Err("no memory".into()),
    };
    let Place { file, line, column } = place;
    Ok(format!(in alloc; "{word} at {line}:{column} of {file}\n")?)
}

/// Returns the tokens of a text and its end, one on each line, or its fault.
fn shown(alloc: Global, text: &[u8]) -> Result<String, Fail> {
    if text.len() > 1_048_576 {
        return Err("too long".into());
    }
    match lex(alloc, text, 7) {
        Ok(lexed) => tokens_text(alloc, &lexed),
        Err(fault) => fault_text(alloc, &fault),
    }
}

#[test]
fn rows(rt: HostRuntime) -> Result<(), Fail> {
    for row in TOKEN_ROWS.split("====\n") {
        let (text, wanted) = cut(row, "\n---\n");
        let found = shown(rt.alloc(), text.as_bytes())?;
        check(&rt, text, found.as_str(), wanted);
    }
    Ok(())
}

/// Tests a byte that is not text, before an open comment.
#[test]
fn bad_byte(rt: HostRuntime) -> Result<(), Fail> {
    let found = shown(rt.alloc(), b"a \x80 /*")?;
    check(&rt, "a bad byte", found.as_str(), "BadByte at 1:3 of 7\n");
    Ok(())
}

/// Returns this number of bytes: `byte` first and last, and letters between.
fn enclosed(alloc: Global, byte: u8, len: usize) -> Result<Vec<u8>, Fail> {
    let mut text = vec![in alloc; b'a'; len]?;
    if len < 2 || len > 1_000 {
        return Err(Fail::from("a length that no row has"));
    }
    text[0] = byte;
    text[len - 1] = byte;
    Ok(text)
}

/// Returns the fault of a text that has this byte first and last, and letters between.
fn fault_of(alloc: Global, byte: u8, len: usize) -> Result<String, Fail> {
    let text = enclosed(alloc, byte, len)?;
    if text.len() > 1_000 {
        return Err("too long".into());
    }
    match lex(alloc, text.as_slice(), 0) {
        Ok(lexed) => Ok(format!(in alloc; "{} tokens\n", lexed.tokens.len())?),
        Err(fault) => fault_text(alloc, &fault),
    }
}

#[test]
fn limits(rt: HostRuntime) -> Result<(), Fail> {
    for (byte, len, wanted) in [
        (b'b', 256, "1 tokens\n"),
        (b'"', 256, "1 tokens\n"),
        (b'b', 257, "TooLong at 1:1 of 0\n"),
        (b'"', 257, "TooLong at 1:1 of 0\n"),
    ] {
        let found = fault_of(rt.alloc(), byte, len)?;
        check(&rt, wanted, found.as_str(), wanted);
    }
    Ok(())
}

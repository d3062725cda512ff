//! Tests of which tokens have a tree, and of the place of a fault.

use super::checks::{check, cut};
use super::syntax_rows::{HEADER_ROWS, PROTOCOL_ROWS};
use ipdl_base::Place;
use ipdl_lex::{LexedText, lex};
use ipdl_parse::{SyntaxFault, parse};
use ipdl_syntax::FileKind;
use std::alloc::Global;
use std::test::Fail;

/// Returns as text that tokens have a tree, or the index and place of the fault.
fn grammar_text(alloc: Global, lexed: &LexedText<'_>, kind: FileKind) -> Result<String, Fail> {
    match parse(alloc, lexed.tokens.as_slice(), lexed.end, kind).err() {
        None => Ok(String::from_str(alloc, "tree")?),
        Some(SyntaxFault::Fault { index, place }) => {
            let Place { line, column, .. } = place;
            Ok(format!(in alloc; "{index} at {line}:{column}")?)
        }
        Some(SyntaxFault::NoMemory) => Err("no memory".into()),
    }
}

/// Returns as text whether a text has a tree, or its fault.
fn shown(alloc: Global, kind: FileKind, text: &[u8]) -> Result<String, Fail> {
    if text.len() > 1_048_576 {
        return Err("too long".into());
    }
    match lex(alloc, text, 0) {
        Ok(lexed) => grammar_text(alloc, &lexed, kind),
        Err(_) => Err("no tokens".into()),
    }
}

#[test]
fn headers(rt: HostRuntime) -> Result<(), Fail> {
    for row in HEADER_ROWS.split("\n") {
        let (wanted, text) = cut(row, " | ");
        let found = shown(rt.alloc(), FileKind::Header, text.as_bytes())?;
        check(&rt, row, found.as_str(), wanted);
    }
    Ok(())
}

#[test]
fn protocol_files(rt: HostRuntime) -> Result<(), Fail> {
    for row in PROTOCOL_ROWS.split("\n") {
        let (wanted, text) = cut(row, " | ");
        let found = shown(rt.alloc(), FileKind::Protocol, text.as_bytes())?;
        check(&rt, row, found.as_str(), wanted);
    }
    Ok(())
}

/// Returns a text of the largest size of a file. Nearly all of it is messages.
fn large_text(alloc: Global) -> Result<Vec<u8>, Fail> {
    let mut text = Vec::new(alloc);
    text.extend_from_slice(b"protocol P { parent: ")?;
    for _ in 0..61_679 {
        text.extend_from_slice(b"async m(int a);\n ")?;
    }
    text.extend_from_slice(b"};\n\n\n\n\n     ")?;
    Ok(text)
}

/// Returns the length of a large text, and whether it has a tree, or its fault.
fn large_shown(alloc: Global) -> Result<String, Fail> {
    let text = large_text(alloc)?;
    let answer = shown(alloc, FileKind::Protocol, text.as_slice())?;
    Ok(format!(in alloc; "{} {}", text.len(), answer.as_str())?)
}

#[test]
fn large(rt: HostRuntime) -> Result<(), Fail> {
    let found = large_shown(rt.alloc())?;
    check(&rt, "a large text", found.as_str(), "1048576 tree");
    Ok(())
}

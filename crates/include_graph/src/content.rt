//! The content of a file: its tree, or why it was not read.

ghost use Rattle.std.specs.Prelude.{◌≤◌, IfOk, Some, length};
ghost use Rattle.ipdl_base.specs.declared.files.TheConstants.{MOST_BYTES};
ghost use Rattle.ipdl_base.specs.FileNames.{IsFileWord};
ghost use Rattle.include_graph.specs.Reading.{IsContentOfTokens, IsContent};

use crate::keys::kind_of;
use ipdl_base::Place;
use ipdl_lex::{LexFault, LexedText, lex};
use ipdl_parse::{SyntaxFault, parse};
use ipdl_syntax::{FileKind, Unit};
use std::alloc::{AllocError, Global};

/// The result of reading the file of a key.
#[derive(Drop)]
pub enum Content {
    /// There is no such file.
    Absent,
    /// The file has more bytes than are read.
    Large,
    /// The file has no tokens. This is the place of the fault.
    BadToken(Place),
    /// The tokens of the file have no tree. This is the place of the fault.
    SyntaxFault(Place),
    /// The tree of the file.
    Read(Unit),
}

/// Returns the content that tokens are read as.
fn content_of_tokens(
    alloc: Global,
    lexed: &LexedText,
    kind: FileKind,
) -> Result<Content, AllocError>
    ensures { IfOk result (IsContentOfTokens kind lexed.now) }
{
    match parse(alloc, lexed.tokens.as_slice(), lexed.end, kind) {
        Ok(unit) => Ok(Content::Read(unit)),
        Err(SyntaxFault::Fault { place, .. }) => Ok(Content::SyntaxFault(place)),
        Err(SyntaxFault::NoMemory) => Err(AllocError),
    }
}

/// Returns the content that the bytes of the file of this number and key are read as.
pub fn content_of_bytes(
    alloc: Global,
    number: u32,
    key: &[u8],
    bytes: &[u8],
) -> Result<Content, AllocError>
    requires word { IsFileWord key.now }
    requires small { length bytes.now ≤ MOST_BYTES }
    ensures { IfOk result (IsContent number key.now (Some bytes.now)) }
{
    match lex(alloc, bytes, number) {
        Ok(lexed) => content_of_tokens(alloc, &lexed, kind_of(key)),
        Err(LexFault::NoMemory) => Err(AllocError),
        Err(
            LexFault::BadByte(place)
            | LexFault::OpenComment(place)
            | LexFault::OpenString(place)
            | LexFault::TooLong(place),
        ) => Ok(Content::BadToken(place)),
    }
}

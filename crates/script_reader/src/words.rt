//! What words and tokens mean: names, actors, values and keywords.

ghost use Rattle.std.specs.Prelude.{◌≡◌, ◌↔◌, ◌⊎◌, IsTrue, IfOk};
ghost use Rattle.script_reader.specs.Grammar as grammar;

use crate::parts::Keyword;
use crate::token::ScriptToken;
use crate::written::{Atom, Who};
use ipdl_base::{Name, Side};
use std::alloc::{AllocError, Global};

/// Returns whether a word is reserved, so that it cannot be a name.
fn is_no_name(word: &[u8]) -> bool
    ensures { result ≡ grammar.is_no_name word.now }
{
    word == b"top".as_slice()
        || word == b"this".as_slice()
        || word == b"made".as_slice()
        || word == b"null".as_slice()
        || word == b"none".as_slice()
        || word == b"some".as_slice()
        || word == b"true".as_slice()
        || word == b"false".as_slice()
}

/// Returns the name that a word spells, if it may be a name.
fn named(alloc: Global, word: &Name) -> Result<Option<Name>, AllocError>
    ensures { IfOk result (λ found. found ≡ grammar.named word.now) }
{
    if is_no_name(word.as_slice()) {
        Ok(None)
    } else {
        Ok(Some(word.copy(alloc)?))
    }
}

/// Returns the name that a token spells, if it is one.
pub fn name_of(alloc: Global, token: &ScriptToken) -> Result<Option<Name>, AllocError>
    ensures { IfOk result (λ found. found ≡ grammar.name_of token.now) }
{
    match token {
        ScriptToken::Word(word) => named(alloc, word),
        _ => Ok(None),
    }
}

/// Returns the actor that a word refers to, if it refers to one.
fn who_named(alloc: Global, word: &Name) -> Result<Option<Who>, AllocError>
    ensures { IfOk result (λ found. found ≡ grammar.who_named word.now) }
{
    let bytes = word.as_slice();
    if bytes == b"top".as_slice() {
        return Ok(Some(Who::Top));
    }
    if bytes == b"this".as_slice() {
        return Ok(Some(Who::This));
    }
    if bytes == b"made".as_slice() {
        return Ok(Some(Who::Made));
    }
    match named(alloc, word)? {
        Some(name) => Ok(Some(Who::Name(name))),
        None => Ok(None),
    }
}

/// Returns the actor or parameter that a token refers to, if it refers to one.
pub fn who_of(alloc: Global, token: &ScriptToken) -> Result<Option<Who>, AllocError>
    ensures { IfOk result (λ found. found ≡ grammar.who_of token.now) }
{
    match token {
        ScriptToken::Word(word) => who_named(alloc, word),
        ScriptToken::Param(n) => Ok(Some(Who::Param(*n))),
        _ => Ok(None),
    }
}

/// Returns the value that a word spells, if it is one.
fn atom_named(alloc: Global, word: &Name) -> Result<Option<Atom>, AllocError>
    ensures { IfOk result (λ found. found ≡ grammar.atom_named word.now) }
{
    let bytes = word.as_slice();
    if bytes == b"true".as_slice() {
        return Ok(Some(Atom::Bool(true)));
    }
    if bytes == b"false".as_slice() {
        return Ok(Some(Atom::Bool(false)));
    }
    if bytes == b"none".as_slice() {
        return Ok(Some(Atom::Nothing));
    }
    if bytes == b"null".as_slice() {
        return Ok(Some(Atom::Null));
    }
    match who_named(alloc, word)? {
        Some(who) => Ok(Some(Atom::Who(who))),
        None => Ok(None),
    }
}

/// Returns the value that a token spells, if it is one.
pub fn atom_of(alloc: Global, token: &ScriptToken) -> Result<Option<Atom>, AllocError>
    ensures { IfOk result (λ found. found ≡ grammar.atom_of token.now) }
{
    match token {
        ScriptToken::Word(word) => atom_named(alloc, word),
        ScriptToken::Param(n) => Ok(Some(Atom::Who(Who::Param(*n)))),
        ScriptToken::Number(n) => Ok(Some(Atom::Number(*n))),
        ScriptToken::Text(text) => Ok(Some(Atom::Text(text.copy(alloc)?))),
        ScriptToken::Bytes(bytes) => Ok(Some(Atom::Bytes(bytes.copy(alloc)?))),
        ScriptToken::Index(_) | ScriptToken::Mark(_) => Ok(None),
    }
}

/// Returns the keyword that a word is, if it is one.
fn keyword_named(word: &[u8]) -> Option<Keyword>
    ensures { result ≡ grammar.keyword_named word.now }
{
    if word == b"parent".as_slice() {
        Some(Keyword::Side(Side::Parent))
    } else if word == b"child".as_slice() {
        Some(Keyword::Side(Side::Child))
    } else if word == b"end".as_slice() {
        Some(Keyword::End)
    } else if word == b"send".as_slice() {
        Some(Keyword::Send)
    } else if word == b"new".as_slice() {
        Some(Keyword::New)
    } else if word == b"let".as_slice() {
        Some(Keyword::Let)
    } else if word == b"resolve".as_slice() {
        Some(Keyword::Resolve)
    } else if word == b"reject".as_slice() {
        Some(Keyword::Reject)
    } else if word == b"keep".as_slice() {
        Some(Keyword::Keep)
    } else if word == b"close".as_slice() {
        Some(Keyword::Close)
    } else if word == b"die".as_slice() {
        Some(Keyword::Die)
    } else if word == b"return".as_slice() {
        Some(Keyword::Return)
    } else {
        None
    }
}

/// Returns the keyword that a token is, if it is one.
pub fn keyword_of(token: &ScriptToken) -> Option<Keyword>
    ensures { result ≡ grammar.keyword_of token.now }
{
    match token {
        ScriptToken::Word(word) => keyword_named(word.as_slice()),
        _ => None,
    }
}

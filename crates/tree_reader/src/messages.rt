//! Reads the messages of a protocol.

ghost use Rattle.std.specs.Prelude.{◌≡◌, ◌<◌, ◌≤◌, IfOk, OnOk, IfErr, true, [], ◌∷◌, length, codes};
ghost use Rattle.ipdl_syntax.specs.Grammar.{semantics_word, params, returns, message};
ghost use Rattle.ipdl_syntax.specs.Parts.{◌⨾◌, mark, reserved};
ghost use Rattle.tree_reader.specs.declared.symbol.Symbol.TheVariants.{OpenParen, Semicolon, Word};
ghost use Rattle.tree_reader.specs.Machine.{take, parameters, after_parameters, one_message, messaged};
ghost use Rattle.tree_reader.specs.Reading.{Turns, Stops, bare_message, begins_message};
ghost use Rattle.tree_reader.specs.Symbols.{first_symbol};

use crate::attributes::attributes;
use crate::params::params;
use crate::reader::TokenReader;
use crate::refusal::TreeRefusal;
use crate::symbol::Symbol;
use ipdl_base::{Direction, Semantics};
use ipdl_syntax::{Attributes, MessageDecl, NameAt, Params};
use std::alloc::Global;

/// Takes the returns of a message, if it has any.
fn returns(alloc: Global, reader: &mut TokenReader) -> Result<Option<Params>, TreeRefusal>
    ensures read { IfOk result (λ found. returns found reader.old reader.new) }
    ensures turns { OnOk result (Turns (after_parameters ∷ []) reader.old (take Semicolon ∷ []) reader.new) }
    ensures stops { IfErr result (Stops (after_parameters ∷ []) reader.old) }
    ensures fewer { OnOk result (length reader.new ≤ length reader.old) }
{
    if reader.skips(Symbol::Returns) {
        reader.take(Symbol::OpenParen)?;
        Ok(Some(params(alloc, reader)?))
    } else {
        Ok(None)
    }
}

/// Takes the word that gives the semantics of a message.
fn semantics(reader: &mut TokenReader) -> Result<Semantics, TreeRefusal>
    ensures read { IfOk result (λ how. reserved (semantics_word how) reader.old reader.new) }
    ensures turns { OnOk result (Turns (one_message ∷ []) reader.old (take Word ∷ take OpenParen ∷ parameters ∷ after_parameters ∷ []) reader.new) }
    ensures stops { IfErr result (Stops (one_message ∷ []) reader.old) }
    ensures less { OnOk result (length reader.new < length reader.old) }
{
    if reader.skips(Symbol::Async) {
        return Ok(Semantics::Async);
    }
    if reader.skips(Symbol::Sync) {
        return Ok(Semantics::Sync);
    }
    Err(reader.refusal())
}

/// The content of a message after its name.
#[derive(Drop)]
struct Contents {
    params: Params,
    returns: Option<Params>,
}

/// Takes the content of a message after its name.
fn message_contents(alloc: Global, reader: &mut TokenReader) -> Result<Contents, TreeRefusal>
    ensures read { IfOk result (λ c. (mark (codes "(") ⨾ params c.params ⨾ mark (codes ")") ⨾ returns c.returns ⨾ mark (codes ";")) reader.old reader.new) }
    ensures turns { OnOk result (Turns (take OpenParen ∷ parameters ∷ after_parameters ∷ []) reader.old [] reader.new) }
    ensures stops { IfErr result (Stops (take OpenParen ∷ parameters ∷ after_parameters ∷ []) reader.old) }
    ensures less { OnOk result (length reader.new < length reader.old) }
{
    reader.take(Symbol::OpenParen)?;
    let params = params(alloc, reader)?;
    let returns = returns(alloc, reader)?;
    reader.take(Symbol::Semicolon)?;
    Ok(Contents { params, returns })
}

/// Takes a message after its attributes.
fn bare_message(
    alloc: Global,
    reader: &mut TokenReader,
    direction: Direction,
    attributes: Attributes,
) -> Result<MessageDecl, TreeRefusal>
    ensures read { IfOk result (λ m. bare_message m reader.old reader.new) }
    ensures given { IfOk result (λ m. (m.direction ≡ direction) × (m.attributes ≡ attributes)) }
    ensures turns { OnOk result (Turns (one_message ∷ []) reader.old [] reader.new) }
    ensures stops { IfErr result (Stops (one_message ∷ []) reader.old) }
    ensures less { OnOk result (length reader.new < length reader.old) }
{
    let semantics = semantics(reader)?;
    let NameAt { name, place } = reader.word(alloc)?;
    let Contents { params, returns } = message_contents(alloc, reader)?;
    Ok(MessageDecl {
        name,
        place,
        direction,
        semantics,
        params,
        returns,
        attributes,
    })
}

/// Takes a message of a section.
pub(crate) fn message(
    alloc: Global,
    reader: &mut TokenReader,
    direction: Direction,
) -> Result<MessageDecl, TreeRefusal>
    requires { begins_message (first_symbol reader.old) ≡ true }
    ensures read { IfOk result (λ m. message direction m reader.old reader.new) }
    ensures turns { OnOk result (Turns (messaged direction ∷ []) reader.old (messaged direction ∷ []) reader.new) }
    ensures stops { IfErr result (Stops (messaged direction ∷ []) reader.old) }
    ensures less { OnOk result (length reader.new < length reader.old) }
{
    let attributes = attributes(alloc, reader)?;
    bare_message(alloc, reader, direction, attributes)
}

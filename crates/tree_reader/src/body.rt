//! Reads the body of a protocol.

ghost use Rattle.std.specs.Prelude.{◌≡◌, ◌≢◌, ◌<◌, ◌≤◌, IfOk, OnOk, IfErr, true, false, None, [], ◌∷◌, length};
ghost use Rattle.tree_reader.specs.declared.symbol.Symbol.TheVariants.{CloseBrace, Colon, Semicolon};
ghost use Rattle.tree_reader.specs.Machine.{Form, take, messaged, managing, more_managing};
ghost use Rattle.tree_reader.specs.Reading.{Turns, Stops, IsNext, IsSectioned, begins_message, direction_of, AddsMessages, AreSections, AddsManagers, AddsStatements, IsBody};
ghost use Rattle.tree_reader.specs.Symbols.{first_symbol};

use crate::messages::message;
use crate::reader::TokenReader;
use crate::refusal::TreeRefusal;
use crate::symbol::Symbol;
use ipdl_base::{Direction, Items};
use ipdl_syntax::{MessageDecl, MessageDecls, NameAt, NamesAt};
use std::alloc::Global;

/// Returns whether a message begins with this symbol.
fn begins_message(symbol: Symbol) -> bool
    ensures { result ≡ begins_message symbol }
{
    match symbol {
        Symbol::OpenBracket | Symbol::Async | Symbol::Sync => true,
        _ => false,
    }
}

/// Takes the messages of a section after its colon, and appends them to `all`.
fn section_messages(
    alloc: Global,
    reader: &mut TokenReader,
    direction: Direction,
    all: &mut Vec<MessageDecl>,
) -> Result<(), TreeRefusal>
    ensures read { OnOk result (AddsMessages direction all.old.items all.new.items reader.old reader.new) }
    ensures ending { OnOk result (begins_message (first_symbol reader.new) ≡ false) }
    ensures turns { OnOk result (Turns (messaged direction ∷ []) reader.old (messaged direction ∷ []) reader.new) }
    ensures stops { IfErr result (Stops (messaged direction ∷ []) reader.old) }
    ensures fewer { OnOk result (length reader.new ≤ length reader.old) }
{
    'messages: while begins_message(reader.symbol()) {
        all.push(message(alloc, reader, direction)?)?;
    }
    Ok(())
}

/// Returns the direction of the section that begins with this symbol, or `None`.
fn direction_of(symbol: Symbol) -> Option<Direction>
    ensures { result ≡ direction_of symbol }
{
    match symbol {
        Symbol::Parent => Some(Direction::Parent),
        Symbol::Child => Some(Direction::Child),
        Symbol::Both => Some(Direction::Both),
        _ => None,
    }
}

/// Takes all sections of a protocol, and returns their messages.
fn sections(alloc: Global, reader: &mut TokenReader) -> Result<Vec<MessageDecl>, TreeRefusal>
    ensures read { IfOk result (λ all. AreSections all.items reader.old reader.new) }
    ensures turns { OnOk result ((f : Form) → IsSectioned f reader.old → Turns (f ∷ []) reader.old (take CloseBrace ∷ take Semicolon ∷ []) reader.new) }
    ensures stops { IfErr result (λ e. (f : Form) → IsSectioned f reader.old → Stops (f ∷ []) reader.old e) }
    ensures fewer { OnOk result (length reader.new ≤ length reader.old) }
{
    let mut all = Vec::new(alloc);
    'sections: while let Some(direction) = direction_of(reader.symbol()) {
        reader.pass();
        reader.take(Symbol::Colon)?;
        section_messages(alloc, reader, direction, &mut all)?;
    }
    Ok(all)
}

/// Takes the managers after the first one, to the semicolon, and appends them to `managers`.
fn more_managers(
    alloc: Global,
    reader: &mut TokenReader,
    managers: &mut Vec<NameAt>,
) -> Result<(), TreeRefusal>
    ensures read { OnOk result (AddsManagers managers.old.items managers.new.items reader.old reader.new) }
    ensures turns { OnOk result (Turns (more_managing ∷ []) reader.old [] reader.new) }
    ensures stops { IfErr result (Stops (more_managing ∷ []) reader.old) }
    ensures less { OnOk result (length reader.new < length reader.old) }
{
    'managers: while reader.skips(Symbol::Or) {
        managers.push(reader.word(alloc)?)?;
    }
    reader.take(Symbol::Semicolon)
}

/// Takes a statement on management if there is one, and returns whether there was.
fn statement(
    alloc: Global,
    reader: &mut TokenReader,
    managers: &mut Vec<NameAt>,
    manages: &mut Vec<NameAt>,
) -> Result<bool, TreeRefusal>
    ensures read { OnOk result (AddsStatements managers.old.items managers.new.items manages.old.items manages.new.items reader.old reader.new) }
    ensures turns { OnOk result (Turns (managing ∷ []) reader.old (managing ∷ []) reader.new) }
    ensures ending { IfOk result (λ found. found ≡ false → IsSectioned managing reader.new) }
    ensures stops { IfErr result (Stops (managing ∷ []) reader.old) }
    ensures fewer { OnOk result (length reader.new ≤ length reader.old) }
    ensures less { IfOk result (λ found. found ≡ true → length reader.new < length reader.old) }
{
    if reader.skips(Symbol::Manager) {
        managers.push(reader.word(alloc)?)?;
        more_managers(alloc, reader, managers)?;
        return Ok(true);
    }
    if reader.skips(Symbol::Manages) {
        manages.push(reader.word(alloc)?)?;
        reader.take(Symbol::Semicolon)?;
        return Ok(true);
    }
    Ok(false)
}

/// The content of a protocol after its `{`.
#[derive(Drop)]
pub(crate) struct ProtocolBody {
    pub(crate) managers: NamesAt,
    pub(crate) manages: NamesAt,
    pub(crate) messages: MessageDecls,
}

/// Takes the content of a protocol after its `{`.
pub(crate) fn protocol_body(
    alloc: Global,
    reader: &mut TokenReader,
) -> Result<ProtocolBody, TreeRefusal>
    ensures read { IfOk result (λ b. IsBody b.managers b.manages b.messages reader.old reader.new) }
    ensures turns { OnOk result (Turns (managing ∷ []) reader.old [] reader.new) }
    ensures stops { IfErr result (Stops (managing ∷ []) reader.old) }
    ensures less { OnOk result (length reader.new < length reader.old) }
{
    let mut managers = Vec::new(alloc);
    let mut manages = Vec::new(alloc);
    'statements: while statement(alloc, reader, &mut managers, &mut manages)? {}
    let messages = sections(alloc, reader)?;
    reader.take(Symbol::CloseBrace)?;
    reader.take(Symbol::Semicolon)?;
    Ok(ProtocolBody {
        managers: Items::from_vec(managers),
        manages: Items::from_vec(manages),
        messages: Items::from_vec(messages),
    })
}

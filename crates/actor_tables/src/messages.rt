//! The rows of protocols and messages.

ghost use Rattle.std.specs.Prelude.{◌↔◌, ◌⊎◌, ◌<◌, IfOk, IsSome, IsSomeAnd, IsTrue};
ghost use Rattle.std.specs.List.{Any, AllZip};
ghost use Rattle.std.specs.Option.{option_copied};
ghost use Rattle.ipdl_base.specs.Sound.{MentionsUncarried};
ghost use Rattle.name_table.specs.Decls.{protocol_of as the_protocol_of};
ghost use Rattle.program_schema.specs.Clean.{IsClean};
ghost use Rattle.program_schema.specs.SchemaOf.{AreRows, IsMessageRow, IsNumberOfName, IsProtocolRow, IsRowKind};
ghost use Rattle.actor_tables.specs.Marked.{AreMarked};
ghost use Rattle.actor_tables.specs.Numbered.{numbering_of};
ghost use Rattle.actor_tables.specs.SchemaSource.{IsSource, NamesFindSole, MessageFindsSole, ProtocolFindsSole};

use crate::carried::MarkedTypes;
use crate::source::SchemaSource;
use crate::types::{param_rows, return_rows};
use ipdl_base::{Items, Kind, MessageRow, ParamRow, ParamRows, ProtocolRow};
use ipdl_syntax::{MessageDecl, NameAt, ProtocolDecl};
use name_table::{
    MessageKind, compress_of, is_lazy, kind_of, message_level, protocol_level, protocol_of,
};
use std::alloc::{AllocError, Global};

/// A protocol with its number and its file.
#[derive(Clone, Copy)]
struct NumberedProtocol<'p> {
    number: u32,
    file: u32,
    protocol: &'p ProtocolDecl,
}

/// Returns the numbers of the protocols that names find in a file.
fn numbers_of_names(
    alloc: Global,
    source: &SchemaSource<'_, '_>,
    file: u32,
    names: &[NameAt],
) -> Result<Vec<u32>, AllocError>
    requires source { IsSource source.now }
    requires sole { NamesFindSole source.now.program.now file names.now }
    ensures { IfOk result (λ numbers. AllZip
        (λ n m. IsNumberOfName source.now.program.now (numbering_of source.now.numbers) file n.name m)
        names.now numbers.items) }
{
    let mut numbers = Vec::new(alloc);
    for name in names {
        numbers.push(source.number_of_name(file, &name.name))?;
    }
    Ok(numbers)
}

/// Returns the kind of a message.
fn row_kind(
    source: &SchemaSource<'_, '_>,
    file: u32,
    protocol: &ProtocolDecl,
    message: &MessageDecl,
) -> Kind
    requires source { IsSource source.now }
    requires sole { MessageFindsSole source.now.program.now file protocol.now message.now }
    ensures { IsRowKind source.now.program.now (numbering_of source.now.numbers) file protocol.now message.now result }
{
    match kind_of(protocol, message) {
        MessageKind::Normal => Kind::Normal,
        MessageKind::Constructor => Kind::Constructor(source.number_of_name(file, &message.name)),
        MessageKind::Destructor => Kind::Delete,
    }
}

/// Returns whether a channel can carry these parameters and returns.
fn are_carried(types: &MarkedTypes, params: &[ParamRow], returns: Option<&ParamRows>) -> bool
    requires { AreMarked types.now }
    ensures { IsTrue result ↔ ¬ (Any (λ p. MentionsUncarried types.now.rows.items p.shape) params.now
        ⊎ IsSomeAnd (option_copied returns.entry)
        (λ rows. Any (λ p. MentionsUncarried types.now.rows.items p.shape) rows)) }
{
    if types.mentions_any(params) {
        return false;
    }
    match returns {
        None => true,
        Some(rows) => !types.mentions_any(rows.as_slice()),
    }
}

/// Returns the row of the message at an index of a protocol.
fn message_row(
    alloc: Global,
    source: &SchemaSource<'_, '_>,
    types: &MarkedTypes,
    of: &NumberedProtocol<'_>,
    index: usize,
    message: &MessageDecl,
) -> Result<MessageRow, AllocError>
    requires source { IsSource source.now }
    requires marked { AreMarked types.now }
    requires low { of.now.number < 4096 }
    requires few { index < 32768 }
    requires sole { MessageFindsSole source.now.program.now of.now.file of.now.protocol.now message.now }
    ensures { IfOk result
        (IsMessageRow source.now.program.now (numbering_of source.now.numbers) types.now.rows.items
        of.now.number of.now.file of.now.protocol.now index message.now) }
{
    let params = param_rows(alloc, source, of.file, message.params.as_slice())?;
    let returns = return_rows(alloc, source, of.file, message.returns.as_ref())?;
    let carried = are_carried(types, params.as_slice(), returns.as_ref());
    Ok(MessageRow {
        number: of.number * 65536 + 2 * index as u32,
        name: message.name.copy(alloc)?,
        direction: message.direction,
        semantics: message.semantics,
        level: message_level(message),
        compress: compress_of(message),
        kind: row_kind(source, of.file, of.protocol, message),
        params: Items::from_vec(params),
        returns,
        carried,
        lazy: is_lazy(message),
    })
}

/// Returns the rows of the messages of a protocol.
fn message_rows(
    alloc: Global,
    source: &SchemaSource<'_, '_>,
    types: &MarkedTypes,
    of: &NumberedProtocol<'_>,
) -> Result<Vec<MessageRow>, AllocError>
    requires source { IsSource source.now }
    requires marked { AreMarked types.now }
    requires low { of.now.number < 4096 }
    requires sole { ProtocolFindsSole source.now.program.now of.now.file of.now.protocol.now }
    ensures { IfOk result (λ rows. AreRows
        (IsMessageRow source.now.program.now (numbering_of source.now.numbers) types.now.rows.items
        of.now.number of.now.file of.now.protocol.now) 0 of.now.protocol.now.messages rows.items) }
{
    let mut rows = Vec::with_capacity(alloc, of.protocol.messages.len())?;
    for (index, message) in of.protocol.messages.as_slice().iter().enumerate() {
        rows.push(message_row(alloc, source, types, of, index, message)?)?;
    }
    Ok(rows)
}

/// Returns the row of a protocol.
fn protocol_row(
    alloc: Global,
    source: &SchemaSource<'_, '_>,
    types: &MarkedTypes,
    of: &NumberedProtocol<'_>,
) -> Result<ProtocolRow, AllocError>
    requires source { IsSource source.now }
    requires marked { AreMarked types.now }
    requires low { of.now.number < 4096 }
    requires sole { ProtocolFindsSole source.now.program.now of.now.file of.now.protocol.now }
    ensures { IfOk result
        (IsProtocolRow source.now.program.now (numbering_of source.now.numbers) types.now.rows.items
        of.now.number of.now.file of.now.protocol.now) }
{
    let protocol = of.protocol;
    let managers = numbers_of_names(alloc, source, of.file, protocol.managers.as_slice())?;
    let manages = numbers_of_names(alloc, source, of.file, protocol.manages.as_slice())?;
    let messages = message_rows(alloc, source, types, of)?;
    Ok(ProtocolRow {
        name: protocol.full.copy(alloc)?,
        semantics: protocol.semantics,
        level: protocol_level(protocol),
        managers: Items::from_vec(managers),
        manages: Items::from_vec(manages),
        messages: Items::from_vec(messages),
    })
}

/// Returns the row of the protocol of a file. `number` is the number of this protocol.
fn row_of_file(
    alloc: Global,
    source: &SchemaSource<'_, '_>,
    types: &MarkedTypes,
    number: u32,
    file: u32,
) -> Result<ProtocolRow, AllocError>
    requires source { IsSource source.now }
    requires clean { IsClean source.now.program.now }
    requires marked { AreMarked types.now }
    requires low { number < 4096 }
    requires there { IsSome (the_protocol_of source.now.program.now file) }
    ensures { IfOk result (λ row. IsSomeAnd (the_protocol_of source.now.program.now file)
        (λ p. IsProtocolRow source.now.program.now (numbering_of source.now.numbers)
        types.now.rows.items number file p row)) }
{
    let Some(protocol) = protocol_of(source.program, file) else {
        unreachable!();
    };
    let of = NumberedProtocol {
        number,
        file,
        protocol,
    };
    protocol_row(alloc, source, types, &of)
}

/// Returns the rows of the protocols of a program.
pub fn protocol_rows(
    alloc: Global,
    source: &SchemaSource<'_, '_>,
    types: &MarkedTypes,
) -> Result<Vec<ProtocolRow>, AllocError>
    requires source { IsSource source.now }
    requires clean { IsClean source.now.program.now }
    requires marked { AreMarked types.now }
    ensures { IfOk result (λ rows. AreRows
        (λ number file row. IsSomeAnd (the_protocol_of source.now.program.now file)
        (λ p. IsProtocolRow source.now.program.now (numbering_of source.now.numbers)
        types.now.rows.items number file p row)) 0 source.now.numbers.files.items rows.items) }
{
    let mut rows = Vec::with_capacity(alloc, source.numbers.files.len())?;
    for (number, file) in source.numbers.files.as_slice().iter().enumerate() {
        rows.push(row_of_file(alloc, source, types, number as u32, *file)?)?;
    }
    Ok(rows)
}

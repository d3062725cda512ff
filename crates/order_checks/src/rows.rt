//! The properties of messages, by the rows of a schema.
ghost use Rattle.std.specs.Prelude.{◌≡◌};
ghost use Rattle.ipdl_base.specs.Sound.{IsSound};
ghost use Rattle.history_reading.specs.Rows as rows;
ghost use Rattle.order_statements.specs.Shape as shape;

use ipdl_base::{Kind, MessageRow, Schema, Semantics};

/// Whether a message is sync.
fn is_sync_row(row: &MessageRow) -> bool
    ensures { result ≡ rows.is_sync_row row.now }
{
    matches!(row.semantics, Semantics::Sync)
}

/// Whether the message of a number is sync.
pub fn is_sync_number(schema: &Schema, number: u32) -> bool
    requires { IsSound schema.now }
    ensures { result ≡ rows.is_sync_number schema.now number }
{
    match schema.message(number) {
        Some(row) => is_sync_row(row),
        None => false,
    }
}

/// Whether a message is async with returns.
fn wants_row(row: &MessageRow) -> bool
    ensures { result ≡ rows.wants_row row.now }
{
    !is_sync_row(row) && row.returns.is_some()
}

/// Whether the message of a number is async with returns.
pub fn wants_number(schema: &Schema, number: u32) -> bool
    requires { IsSound schema.now }
    ensures { result ≡ rows.wants_number schema.now number }
{
    match schema.message(number) {
        Some(row) => wants_row(row),
        None => false,
    }
}

/// Whether the request of a number owes a reply.
pub fn owes_reply(schema: &Schema, number: u32) -> bool
    requires { IsSound schema.now }
    ensures { result ≡ shape.owes_reply schema.now number }
{
    is_sync_number(schema, number) || wants_number(schema, number)
}

/// Whether a message deletes its actor.
fn deletes(kind: Kind) -> bool
    ensures { result ≡ shape.deletes kind }
{
    matches!(kind, Kind::Delete)
}

/// Whether the message of a number deletes its actor.
pub fn is_destructor(schema: &Schema, number: u32) -> bool
    requires { IsSound schema.now }
    ensures { result ≡ shape.is_destructor schema.now number }
{
    match schema.message(number) {
        Some(row) => deletes(row.kind),
        None => false,
    }
}

/// Returns the protocol of the actor that a message makes.
fn protocol_made(kind: Kind) -> Option<u32>
    ensures { result ≡ shape.protocol_made kind }
{
    match kind {
        Kind::Constructor(protocol) => Some(protocol),
        Kind::Normal | Kind::Delete => None,
    }
}

/// Returns the protocol of the actor that the message of a number makes.
pub fn constructor_of(schema: &Schema, number: u32) -> Option<u32>
    requires { IsSound schema.now }
    ensures { result ≡ shape.constructor_of schema.now number }
{
    match schema.message(number) {
        Some(row) => protocol_made(row.kind),
        None => None,
    }
}

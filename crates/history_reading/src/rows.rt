//! The properties of messages, by the rows of a schema.
ghost use Rattle.std.specs.Prelude.{◌≡◌, option_map};
ghost use Rattle.ipdl_base.specs.Sound.{IsSound, message_of};
ghost use Rattle.history_reading.specs.Rows as rows;

use crate::parts::Cause;
use ipdl_base::{Kind, MessageRow, ParamRow, Schema, Semantics};

/// Whether a number is that of the request of a message.
pub fn is_request_number(schema: &Schema, number: u32) -> bool
    requires { IsSound schema.now }
    ensures { result ≡ rows.is_request_number schema.now number }
{
    match schema.message(number) {
        Some(row) => row.number == number,
        None => false,
    }
}

/// Whether a message is sync.
fn is_sync_row(row: &MessageRow) -> bool
    ensures { result ≡ rows.is_sync_row row.now }
{
    matches!(row.semantics, Semantics::Sync)
}

/// Whether the message of a number is sync.
pub fn is_sync_number(schema: &Schema, number: u32) -> bool
    requires { IsSound schema.now }
    ensures { result ≡ rows.is_sync_number schema.now number }
{
    match schema.message(number) {
        Some(row) => is_sync_row(row),
        None => false,
    }
}

/// Whether a message is async with returns.
fn wants_row(row: &MessageRow) -> bool
    ensures { result ≡ rows.wants_row row.now }
{
    !is_sync_row(row) && row.returns.is_some()
}

/// Whether the message of a number is async with returns.
pub fn wants_number(schema: &Schema, number: u32) -> bool
    requires { IsSound schema.now }
    ensures { result ≡ rows.wants_number schema.now number }
{
    match schema.message(number) {
        Some(row) => wants_row(row),
        None => false,
    }
}

/// Whether a message makes an actor.
fn constructs(kind: Kind) -> bool
    ensures { result ≡ rows.constructs kind }
{
    matches!(kind, Kind::Constructor(_))
}

/// Whether the message of a number makes an actor.
pub fn is_constructor(schema: &Schema, number: u32) -> bool
    requires { IsSound schema.now }
    ensures { result ≡ rows.is_constructor schema.now number }
{
    match schema.message(number) {
        Some(row) => constructs(row.kind),
        None => false,
    }
}

/// Returns why actors fall in the event of a message that goes to an actor.
fn kind_cause(kind: Kind, route: i32) -> Cause
    ensures { result ≡ rows.kind_cause kind route }
{
    match kind {
        Kind::Delete => Cause::Delete(route),
        Kind::Normal | Kind::Constructor(_) => Cause::Nobody,
    }
}

/// Returns why actors fall in the event of the message of a number that goes to an actor.
pub fn delete_cause(schema: &Schema, number: u32, route: i32) -> Cause
    requires { IsSound schema.now }
    ensures { result ≡ rows.delete_cause schema.now number route }
{
    match schema.message(number) {
        Some(row) => kind_cause(row.kind, route),
        None => Cause::Nobody,
    }
}

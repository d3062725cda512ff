//! The least values of types, by what is known so far.
ghost use Rattle.std.specs.Prelude.{◌≡◌};
ghost use Rattle.value_types.specs.Sizes.{made_size};
ghost use Rattle.wait_report.specs.Least as least;

use ipdl_base::{Builtin, Kind, MessageRow, ParamRow, Shape, TypeRow};
use value_types::number_bytes;

/// The greatest number of bytes that a request carries.
pub const MOST_BYTES: usize = 4096;

/// More bytes than any request carries.
pub const TOO_MANY: usize = 4097;

/// Returns the bytes of the least value of a builtin.
fn least_of_builtin(builtin: Builtin) -> usize
    ensures { result ≡ least.builtin_least builtin }
{
    if builtin.is_carried() {
        number_bytes(builtin).max(4)
    } else {
        TOO_MANY
    }
}

/// Returns whether a protocol is known to be built.
pub fn is_built(built: &[bool], protocol: u32) -> bool
    ensures { result ≡ least.is_built built.now protocol }
{
    match built.get(protocol as usize) {
        Some(known) => *known,
        None => false,
    }
}

/// Returns the bytes of the least value that is known of a type.
pub fn least_of(shape: &Shape, types: &[usize], built: &[bool]) -> usize
    ensures { result ≡ least.least_of types.now built.now shape.now }
{
    match shape {
        Shape::Builtin(builtin) => least_of_builtin(*builtin),
        Shape::Using(_) | Shape::Array(_) | Shape::Maybe(_) | Shape::Unique(_) => 4,
        Shape::Actor(protocol, nullable) => {
            if *nullable || is_built(built, *protocol) {
                4
            } else {
                TOO_MANY
            }
        }
        Shape::Named(number) => match types.get(*number as usize) {
            Some(bytes) => *bytes,
            None => TOO_MANY,
        },
        Shape::Endpoint(_, _) => TOO_MANY,
    }
}

/// Returns the bytes of the least values of fields or parameters together.
fn sum_of(fields: &[ParamRow], types: &[usize], built: &[bool]) -> usize
    ensures { result ≡ least.sum_of types.now built.now fields.now }
{
    let mut bytes: usize = 0;
    for field in fields {
        if bytes == TOO_MANY {
            return TOO_MANY;
        }
        bytes = bytes
            .saturating_add(least_of(&field.shape, types, built))
            .min(TOO_MANY);
    }
    bytes
}

/// Returns the bytes of the least value of any of these types.
fn least_in(components: &[Shape], types: &[usize], built: &[bool]) -> usize
    ensures { result ≡ least.least_in types.now built.now components.now }
{
    let mut bytes: usize = TOO_MANY;
    for component in components {
        bytes = bytes.min(least_of(component, types, built));
    }
    bytes
}

/// Returns the bytes of the least value of a struct or a union.
pub fn row_least(row: &TypeRow, types: &[usize], built: &[bool]) -> usize
    ensures { result ≡ least.row_least types.now built.now row.now }
{
    let inside = match row {
        TypeRow::Struct(_, fields) => sum_of(fields.as_slice(), types, built),
        TypeRow::Union(_, components) => least_in(components.as_slice(), types, built),
    };
    inside.saturating_add(4).min(TOO_MANY)
}

/// Returns the bytes of the new id that a request carries.
fn made_bytes(kind: Kind) -> usize
    ensures { result ≡ made_size kind }
{
    match kind {
        Kind::Constructor(_) => 4,
        Kind::Normal | Kind::Delete => 0,
    }
}

/// Returns whether a message can be sent, by what is known.
pub fn can_send(row: &MessageRow, types: &[usize], built: &[bool]) -> bool
    ensures { result ≡ least.can_send types.now built.now row.now }
{
    row.carried
        && is_built(built, row.number / 65536)
        && made_bytes(row.kind).saturating_add(sum_of(row.params.as_slice(), types, built))
            <= MOST_BYTES
}

//! The sizes of values and payloads in bytes.
ghost use Rattle.std.specs.Prelude.{◌≡◌, ◌≤◌, ◌+◌, min, length, unwrap_or, option_map};
ghost use Rattle.ipdl_base.specs.Sound.{IsSound};
ghost use Rattle.value_types.specs.Sizes as size;

use crate::layout::Layout;
use crate::shapes::{builtin_of, component_of, element_of, fields_of, held_by};
use ipdl_base::{Body, Builtin, Kind, Message, MessageRow, ParamRow, Schema, Shape, Value, Values};

/// Returns the bytes of a part, including its padding.
fn padded(layout: Layout, bytes: usize) -> usize
    ensures { result ≡ min (size.padded layout bytes) size.greatest_size }
{
    if layout.aligned {
        bytes.saturating_add((4 - bytes % 4) % 4)
    } else {
        bytes
    }
}

/// Returns the number of bytes of a number of a builtin, without padding; 0 if its values are not numbers.
pub fn number_bytes(builtin: Builtin) -> usize
    ensures value { result ≡ size.number_bytes builtin }
    ensures few { result ≤ 8 }
{
    match builtin {
        Builtin::Char | Builtin::Int8 | Builtin::Uint8 => 1,
        Builtin::Short | Builtin::Int16 | Builtin::Uint16 => 2,
        Builtin::Int | Builtin::Int32 | Builtin::Uint32 | Builtin::NsResult | Builtin::Float => 4,
        Builtin::Long
        | Builtin::Int64
        | Builtin::IntPtr
        | Builtin::Uint64
        | Builtin::UintPtr
        | Builtin::Double => 8,
        _ => 0,
    }
}

/// Returns the bytes of a number of a type.
fn number_size(layout: Layout, shape: &Shape) -> usize
    ensures { result ≡ min (size.number_size layout shape.now) size.greatest_size }
{
    match builtin_of(shape) {
        Some(builtin) => padded(layout, number_bytes(builtin)),
        None => padded(layout, 0),
    }
}

/// Returns the bytes of a text or of bytes, including their length.
fn bytes_size(layout: Layout, bytes: &[u8]) -> usize
    ensures { result ≡ min (size.bytes_size layout bytes.now) size.greatest_size }
{
    padded(layout, bytes.len().saturating_add(4))
}

/// Returns the bytes of a value.
#[cycle(sizes)]
fn size_of_value(value: &Value, layout: Layout, schema: &Schema, shape: &Shape) -> usize
    ensures { result ≡ min (size.value_size layout schema.now shape.now value.now) size.greatest_size }
{
    match value {
        Value::Bool(_) => padded(layout, 1),
        Value::Int(_) | Value::Bits(_) => number_size(layout, shape),
        Value::Text(bytes) | Value::Bytes(bytes) => bytes_size(layout, bytes.as_slice()),
        Value::Struct(values) => {
            let fields = fields_of(schema, shape).unwrap_or(&[]);
            padded(layout, 1).saturating_add(size_of_values(values, layout, schema, fields))
        }
        Value::Union(index, held) => match component_of(schema, shape, *index) {
            Some(component) => size_of_value(held, layout, schema, component).saturating_add(4),
            None => 4,
        },
        Value::Array(values) => match element_of(shape) {
            Some(element) => size_of_elements(values, layout, schema, element).saturating_add(4),
            None => 4,
        },
        Value::Maybe(None) => padded(layout, 1),
        Value::Maybe(Some(held)) => match held_by(shape) {
            Some(inner) => {
                padded(layout, 1).saturating_add(size_of_value(held, layout, schema, inner))
            }
            None => padded(layout, 1),
        },
        Value::Actor(_) => 4,
    }
}

/// Returns the bytes of values of one type.
#[cycle(sizes)]
fn size_of_elements(values: &Values, layout: Layout, schema: &Schema, shape: &Shape) -> usize
    ensures { result ≡ min (size.elements_size layout schema.now shape.now values.now) size.greatest_size }
{
    match values {
        Values::Nothing => 0,
        Values::First(value, rest) => size_of_value(value, layout, schema, shape).saturating_add(
            size_of_elements(rest, layout, schema, shape),
        ),
    }
}

/// Returns the bytes of values of the types of fields.
#[cycle(sizes)]
fn size_of_values(values: &Values, layout: Layout, schema: &Schema, fields: &[ParamRow]) -> usize
    ensures { result ≡ min (size.values_size layout schema.now fields.now values.now) size.greatest_size }
{
    match (values, fields.split_first()) {
        (Values::First(value, rest), Some((field, more))) => {
            size_of_value(value, layout, schema, &field.shape).saturating_add(size_of_values(
                rest, layout, schema, more,
            ))
        }
        _ => 0,
    }
}

/// Returns the number of bytes of a value of a type in a payload, or the greatest `usize` if there are more.
/// Takes no memory.
pub fn value_size(schema: &Schema, layout: Layout, shape: &Shape, value: &Value) -> usize
    ensures { result ≡ min (size.value_size layout schema.now shape.now value.now) size.greatest_size }
{
    size_of_value(value, layout, schema, shape)
}

/// Returns the number of bytes of values in a payload, or the greatest `usize` if there are more. Takes no
/// memory.
pub fn values_size(schema: &Schema, layout: Layout, params: &[ParamRow], values: &Values) -> usize
    ensures { result ≡ min (size.values_size layout schema.now params.now values.now) size.greatest_size }
{
    size_of_values(values, layout, schema, params)
}

/// Returns the bytes of what a request carries.
fn request_size(layout: Layout, schema: &Schema, values: &Values, row: &MessageRow) -> usize
    ensures { result ≡ min (size.request_size layout schema.now values.now row.now) size.greatest_size }
{
    let size = size_of_values(values, layout, schema, row.params.as_slice());
    match row.kind {
        Kind::Constructor(_) => size.saturating_add(4),
        Kind::Normal | Kind::Delete => size,
    }
}

/// Returns the bytes of what a reply carries.
fn reply_size(layout: Layout, schema: &Schema, values: &Values, row: &MessageRow) -> usize
    ensures { result ≡ min (size.reply_size layout schema.now values.now row.now) size.greatest_size }
{
    match &row.returns {
        Some(returns) => size_of_values(values, layout, schema, returns.as_slice()),
        None => 0,
    }
}

/// Returns the number of bytes of what a message carries, by the row of its number, or the greatest `usize`
/// if there are more. Values of a message without a row take no bytes. Takes no memory.
pub fn body_size(schema: &Schema, layout: Layout, row: Option<&MessageRow>, body: &Body) -> usize
    ensures { result ≡ min (size.body_size layout schema.now (option_map (λ r. r.now) row.entry) body.now) size.greatest_size }
{
    match (body, row) {
        (Body::Request(values), Some(row)) => request_size(layout, schema, values, row),
        (Body::Reply(values), Some(row)) => reply_size(layout, schema, values, row),
        (Body::Request(_) | Body::Reply(_), None) | (Body::Goodbye, _) => 0,
        (Body::Fault(_), _) => padded(layout, 1),
    }
}

/// Returns the number of bytes of a message's payload, or the greatest `usize` if there are more. Takes no
/// memory.
pub fn payload_size(schema: &Schema, layout: Layout, message: &Message) -> usize
    requires { IsSound schema.now }
    ensures { result ≡ min (size.payload_size layout schema.now message.now) size.greatest_size }
{
    body_size(
        schema,
        layout,
        schema.message(message.number),
        &message.body,
    )
}

//! The text of values, as scripts and transcripts write them.
ghost use Rattle.std.specs.Prelude.{◌≡◌, ◌<◌, ◌++◌, OnOk, codes};
ghost use Rattle.std.specs.Fmt.{decimal};
ghost use Rattle.std.specs.List.{flat_map};
ghost use Rattle.value_types.specs.ValueText as text;

use crate::decimal::push_decimal;
use crate::shapes::{builtin_of, component_of, element_of, fields_of, held_by};
use ipdl_base::{Builtin, ParamRow, Schema, Shape, Value, Values};
use std::alloc::AllocError;

/// Returns a hexadecimal digit in lower case.
fn hex_digit(n: u8) -> u8
    requires { n < 16 }
    ensures { result ≡ text.hex_digit n }
{
    if n < 10 { b'0' + n } else { 87 + n }
}

/// Appends the two digits of a byte.
fn push_hex_byte(byte: u8, out: &mut Vec<u8>) -> Result<(), AllocError>
    ensures { OnOk result (out.new.items ≡ out.old.items ++ text.hex_byte byte) }
{
    out.extend_from_slice(&[hex_digit(byte / 16), hex_digit(byte % 16)])
}

/// Appends the last `count` hexadecimal digits of a number, the highest first.
fn push_hex_digits(count: u32, n: u64, out: &mut Vec<u8>) -> Result<(), AllocError>
    ensures { OnOk result (out.new.items ≡ out.old.items ++ text.hex_digits count n) }
{
    if count == 0 {
        return Ok(());
    }
    push_hex_digits(count - 1, n / 16, out)?;
    out.extend_from_slice(&[hex_digit((n % 16) as u8)])
}

/// Appends a byte as it is written between quotes.
fn push_escaped(byte: u8, out: &mut Vec<u8>) -> Result<(), AllocError>
    ensures { OnOk result (out.new.items ≡ out.old.items ++ text.escaped byte) }
{
    match byte {
        b'"' => out.extend_from_slice(b"\\\""),
        b'\\' => out.extend_from_slice(b"\\\\"),
        b'\n' => out.extend_from_slice(b"\\n"),
        b'\t' => out.extend_from_slice(b"\\t"),
        _ => {
            if byte < 32 || byte == 127 {
                out.extend_from_slice(b"\\x")?;
                push_hex_byte(byte, out)
            } else {
                out.push(byte)?;
                Ok(())
            }
        }
    }
}

/// Appends the bytes of a text as they are written between quotes.
fn push_all_escaped(bytes: &[u8], out: &mut Vec<u8>) -> Result<(), AllocError>
    ensures { OnOk result (out.new.items ≡ out.old.items ++ flat_map text.escaped bytes.now) }
{
    for byte in bytes {
        push_escaped(*byte, out)?;
    }
    Ok(())
}

/// Appends the two digits of each byte.
fn push_all_hex(bytes: &[u8], out: &mut Vec<u8>) -> Result<(), AllocError>
    ensures { OnOk result (out.new.items ≡ out.old.items ++ flat_map text.hex_byte bytes.now) }
{
    for byte in bytes {
        push_hex_byte(*byte, out)?;
    }
    Ok(())
}

/// Appends a text in quotes.
fn push_quoted(bytes: &[u8], out: &mut Vec<u8>) -> Result<(), AllocError>
    ensures { OnOk result (out.new.items ≡ out.old.items ++ text.quoted bytes.now) }
{
    out.extend_from_slice(b"\"")?;
    push_all_escaped(bytes, out)?;
    out.extend_from_slice(b"\"")
}

/// Appends bytes as hexadecimal digits between quotes.
fn push_bytes(bytes: &[u8], out: &mut Vec<u8>) -> Result<(), AllocError>
    ensures { OnOk result (out.new.items ≡ out.old.items ++ text.bytes_text bytes.now) }
{
    out.extend_from_slice(b"h\"")?;
    push_all_hex(bytes, out)?;
    out.extend_from_slice(b"\"")
}

/// Appends the bits of a float or a double as hexadecimal digits between quotes.
fn push_bits(shape: &Shape, bits: u64, out: &mut Vec<u8>) -> Result<(), AllocError>
    ensures { OnOk result (out.new.items ≡ out.old.items ++ text.bits_text shape.now bits) }
{
    let count = match builtin_of(shape) {
        Some(Builtin::Float) => 8,
        _ => 16,
    };
    out.extend_from_slice(b"h\"")?;
    push_hex_digits(count, bits, out)?;
    out.extend_from_slice(b"\"")
}

/// Appends an actor by its id.
fn push_actor(id: i32, out: &mut Vec<u8>) -> Result<(), AllocError>
    ensures { OnOk result (out.new.items ≡ out.old.items ++ text.actor_text id) }
{
    if id == 0 {
        out.extend_from_slice(b"null")
    } else {
        out.extend_from_slice(b"#")?;
        push_decimal(out, id)
    }
}

/// Appends the index of a union's component.
fn push_index(index: u32, out: &mut Vec<u8>) -> Result<(), AllocError>
    ensures { OnOk result (out.new.items ≡ out.old.items ++ (codes "@" ++ decimal index ++ codes " ")) }
{
    out.extend_from_slice(b"@")?;
    push_decimal(out, index)?;
    out.extend_from_slice(b" ")
}

/// Appends a value of a type.
#[cycle(text)]
fn push_text(
    value: &Value,
    schema: &Schema,
    shape: &Shape,
    out: &mut Vec<u8>,
) -> Result<(), AllocError>
    ensures { OnOk result (out.new.items ≡ out.old.items ++ text.value_text schema.now shape.now value.now) }
{
    match value {
        Value::Bool(true) => out.extend_from_slice(b"true"),
        Value::Bool(false) => out.extend_from_slice(b"false"),
        Value::Int(number) => push_decimal(out, *number),
        Value::Text(bytes) => push_quoted(bytes.as_slice(), out),
        Value::Bytes(bytes) => push_bytes(bytes.as_slice(), out),
        Value::Bits(bits) => push_bits(shape, *bits, out),
        Value::Struct(values) => {
            let fields = fields_of(schema, shape).unwrap_or(&[]);
            out.extend_from_slice(b"{")?;
            push_parts(values, schema, fields, b"", out)?;
            out.extend_from_slice(b"}")
        }
        Value::Union(index, held) => {
            push_index(*index, out)?;
            match component_of(schema, shape, *index) {
                Some(component) => push_text(held, schema, component, out),
                None => Ok(()),
            }
        }
        Value::Array(values) => {
            out.extend_from_slice(b"[")?;
            if let Some(element) = element_of(shape) {
                push_elements(values, schema, element, b"", out)?;
            }
            out.extend_from_slice(b"]")
        }
        Value::Maybe(None) => out.extend_from_slice(b"none"),
        Value::Maybe(Some(held)) => {
            out.extend_from_slice(b"some ")?;
            match held_by(shape) {
                Some(inner) => push_text(held, schema, inner, out),
                None => Ok(()),
            }
        }
        Value::Actor(id) => push_actor(*id, out),
    }
}

/// Appends values of one type: the given bytes before the first, and a comma and a blank before each other
/// one.
#[cycle(text)]
fn push_elements(
    values: &Values,
    schema: &Schema,
    shape: &Shape,
    before: &[u8],
    out: &mut Vec<u8>,
) -> Result<(), AllocError>
    ensures { OnOk result (out.new.items ≡ out.old.items ++ text.elements_text before.now schema.now shape.now values.now) }
{
    match values {
        Values::Nothing => Ok(()),
        Values::First(value, rest) => {
            out.extend_from_slice(before)?;
            push_text(value, schema, shape, out)?;
            push_elements(rest, schema, shape, b", ", out)
        }
    }
}

/// Appends values of the types of fields, in the same way.
#[cycle(text)]
fn push_parts(
    values: &Values,
    schema: &Schema,
    fields: &[ParamRow],
    before: &[u8],
    out: &mut Vec<u8>,
) -> Result<(), AllocError>
    ensures { OnOk result (out.new.items ≡ out.old.items ++ text.parts_text before.now schema.now fields.now values.now) }
{
    match (values, fields.split_first()) {
        (Values::First(value, rest), Some((field, more))) => {
            out.extend_from_slice(before)?;
            push_text(value, schema, &field.shape, out)?;
            push_parts(rest, schema, more, b", ", out)
        }
        _ => Ok(()),
    }
}

/// Appends the text of a value of a type. Fails only if memory runs out; part of the text may then be
/// appended.
pub fn push_value(
    schema: &Schema,
    shape: &Shape,
    value: &Value,
    out: &mut Vec<u8>,
) -> Result<(), AllocError>
    ensures { OnOk result (out.new.items ≡ out.old.items ++ text.value_text schema.now shape.now value.now) }
{
    push_text(value, schema, shape, out)
}

/// Appends the texts of the values of parameters, with a comma and a blank between them. Fails only if memory
/// runs out; part of the text may then be appended.
pub fn push_values(
    schema: &Schema,
    params: &[ParamRow],
    values: &Values,
    out: &mut Vec<u8>,
) -> Result<(), AllocError>
    ensures { OnOk result (out.new.items ≡ out.old.items ++ text.values_text schema.now params.now values.now) }
{
    push_parts(values, schema, params, b"", out)
}

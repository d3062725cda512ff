//! Writes values and messages as bytes.

ghost use Rattle.std.specs.Prelude.{◌≡◌, ◌≤◌, ◌++◌, ◌^◌, ◌%◌, OnOk, IfOk, option_map, length};
ghost use Rattle.ipdl_base.specs.Sound.{IsSound};
ghost use Rattle.value_codec.specs.Spelling as spelling;
ghost use Rattle.value_codec.specs.Spelling.{value_bytes, elements_bytes, values_bytes, body_bytes, payload_bytes, address_bytes, order_bytes, fields_bytes, mark_of, frame_bytes};

use crate::header::{Header, fault_flags, reply_flags, request_flags};
use crate::parts::{put_counted, put_index, put_number, put_part, put_signed_word, put_word};
use crate::reading::STRUCT_BYTE;
use ipdl_base::{Body, Kind, Message, MessageRow, ParamRow, Reason, Schema, Shape, Value, Values};
use std::alloc::{AllocError, Global};
use value_types::{
    Layout, MARK, builtin_of, component_of, element_of, fields_of, held_by, number_bytes,
};

/// Returns the number of values modulo 2^32.
fn count(values: &Values) -> u32
    ensures { result ≡ spelling.count values.now % 2 ^ 32 }
{
    match values {
        Values::Nothing => 0,
        Values::First(_, rest) => count(rest).wrapping_add(1),
    }
}

/// Returns the number of bytes of a number of a type.
fn width(shape: &Shape) -> usize
    ensures value { result ≡ spelling.width shape.now }
    ensures few { result ≤ 8 }
{
    match builtin_of(shape) {
        Some(builtin) => number_bytes(builtin),
        None => 0,
    }
}

/// Appends a value of a type.
#[cycle(writing)]
fn put_value(
    value: &Value,
    out: &mut Vec<u8>,
    layout: Layout,
    schema: &Schema,
    shape: &Shape,
) -> Result<(), AllocError>
    ensures { OnOk result (out.new.items ≡ out.old.items ++ value_bytes layout schema.now shape.now value.now) }
{
    match value {
        Value::Bool(b) => put_part(out, layout, &[u8::from(*b)]),
        Value::Int(number) => put_number(out, layout, width(shape), *number),
        Value::Text(bytes) | Value::Bytes(bytes) => put_counted(out, layout, bytes.as_slice()),
        Value::Bits(bits) => put_number(out, layout, width(shape), i128::from(*bits)),
        Value::Struct(values) => {
            put_part(out, layout, &[STRUCT_BYTE])?;
            let fields = fields_of(schema, shape).unwrap_or(&[]);
            put_values(values, out, layout, schema, fields)
        }
        Value::Union(index, held) => {
            put_index(out, *index)?;
            match component_of(schema, shape, *index) {
                Some(component) => put_value(held, out, layout, schema, component),
                None => Ok(()),
            }
        }
        Value::Array(values) => {
            put_word(out, count(values))?;
            match element_of(shape) {
                Some(element) => put_elements(values, out, layout, schema, element),
                None => Ok(()),
            }
        }
        Value::Maybe(None) => put_part(out, layout, &[0]),
        Value::Maybe(Some(held)) => {
            put_part(out, layout, &[1])?;
            match held_by(shape) {
                Some(inner) => put_value(held, out, layout, schema, inner),
                None => Ok(()),
            }
        }
        Value::Actor(id) => put_signed_word(out, *id),
    }
}

/// Appends values of one type.
#[cycle(writing)]
fn put_elements(
    values: &Values,
    out: &mut Vec<u8>,
    layout: Layout,
    schema: &Schema,
    shape: &Shape,
) -> Result<(), AllocError>
    ensures { OnOk result (out.new.items ≡ out.old.items ++ elements_bytes layout schema.now shape.now values.now) }
{
    match values {
        Values::Nothing => Ok(()),
        Values::First(value, rest) => {
            put_value(value, out, layout, schema, shape)?;
            put_elements(rest, out, layout, schema, shape)
        }
    }
}

/// Appends values of the types of fields or parameters.
#[cycle(writing)]
fn put_values(
    values: &Values,
    out: &mut Vec<u8>,
    layout: Layout,
    schema: &Schema,
    fields: &[ParamRow],
) -> Result<(), AllocError>
    ensures { OnOk result (out.new.items ≡ out.old.items ++ values_bytes layout schema.now fields.now values.now) }
{
    match (values, fields.split_first()) {
        (Values::First(value, rest), Some((field, more))) => {
            put_value(value, out, layout, schema, &field.shape)?;
            put_values(rest, out, layout, schema, more)
        }
        _ => Ok(()),
    }
}

/// Returns the byte of a fault. `ChannelClosed` is in no frame.
fn reason_byte(reason: Reason) -> u8
    ensures { result ≡ spelling.reason_byte reason }
{
    match reason {
        Reason::ChannelClosed => 0,
        Reason::HandlerRejected => 3,
        Reason::ActorDestroyed => 4,
        Reason::ResolverDestroyed => 5,
    }
}

/// Appends what a request carries.
fn put_request(
    out: &mut Vec<u8>,
    layout: Layout,
    schema: &Schema,
    row: &MessageRow,
    made: i32,
    values: &Values,
) -> Result<(), AllocError>
    ensures { OnOk result (out.new.items ≡ out.old.items ++ spelling.request_bytes layout schema.now made values.now row.now) }
{
    if let Kind::Constructor(_) = row.kind {
        put_signed_word(out, made)?;
    }
    put_values(values, out, layout, schema, row.params.as_slice())
}

/// Appends what a reply carries.
fn put_reply(
    out: &mut Vec<u8>,
    layout: Layout,
    schema: &Schema,
    row: &MessageRow,
    values: &Values,
) -> Result<(), AllocError>
    ensures { OnOk result (out.new.items ≡ out.old.items ++ spelling.reply_bytes layout schema.now values.now row.now) }
{
    match &row.returns {
        Some(returns) => put_values(values, out, layout, schema, returns.as_slice()),
        None => Ok(()),
    }
}

/// Appends what a message carries, by the row of its number. Values of a message without a row take no bytes.
pub(crate) fn put_body(
    out: &mut Vec<u8>,
    layout: Layout,
    schema: &Schema,
    row: Option<&MessageRow>,
    made: i32,
    body: &Body,
) -> Result<(), AllocError>
    ensures { OnOk result (out.new.items ≡ out.old.items ++ body_bytes layout schema.now (option_map (λ r. r.now) row.entry) made body.now) }
{
    match (body, row) {
        (Body::Request(values), Some(row)) => put_request(out, layout, schema, row, made, values),
        (Body::Reply(values), Some(row)) => put_reply(out, layout, schema, row, values),
        (Body::Request(_) | Body::Reply(_), None) | (Body::Goodbye, _) => Ok(()),
        (Body::Fault(reason), _) => put_part(out, layout, &[reason_byte(*reason)]),
    }
}

/// Returns the flags of a message, by the row of its number.
fn body_flags(row: Option<&MessageRow>, body: &Body) -> u32
    ensures { result ≡ spelling.body_flags (option_map (λ r. r.now) row.entry) body.now }
{
    match (body, row) {
        (Body::Request(_), Some(row)) => request_flags(row),
        (Body::Reply(_), Some(row)) => reply_flags(row),
        (Body::Fault(_), Some(row)) => fault_flags(row),
        (Body::Request(_) | Body::Reply(_) | Body::Fault(_), None) | (Body::Goodbye, _) => 0,
    }
}

/// Appends the mark of a layout.
fn put_mark(out: &mut Vec<u8>, layout: Layout) -> Result<(), AllocError>
    ensures { OnOk result (out.new.items ≡ out.old.items ++ mark_of layout) }
{
    if layout.marked {
        out.extend_from_slice(&MARK)?;
    }
    Ok(())
}

/// Appends the first three fields of a header: size, route and number.
fn put_address(out: &mut Vec<u8>, header: &Header) -> Result<(), AllocError>
    ensures { let h = header.now in OnOk result (out.new.items ≡ out.old.items ++ address_bytes h.size h.route h.number) }
{
    put_word(out, header.size)?;
    put_signed_word(out, header.route)?;
    put_word(out, header.number)
}

/// Appends the other three fields of a header: flags, number of the request and transaction.
fn put_order(out: &mut Vec<u8>, header: &Header) -> Result<(), AllocError>
    ensures { let h = header.now in OnOk result (out.new.items ≡ out.old.items ++ order_bytes h.flags h.seq h.transaction) }
{
    put_word(out, header.flags)?;
    put_signed_word(out, header.seq)?;
    put_signed_word(out, header.transaction)
}

/// Appends the fields of a header.
fn put_header(out: &mut Vec<u8>, header: &Header) -> Result<(), AllocError>
    ensures { let h = header.now in OnOk result (out.new.items ≡ out.old.items ++ fields_bytes h.size h.route h.number h.flags h.seq h.transaction) }
{
    put_address(out, header)?;
    put_order(out, header)
}

/// Returns the frame of a message whose payload has `size` bytes.
pub(crate) fn frame_of(
    alloc: Global,
    layout: Layout,
    schema: &Schema,
    message: &Message,
    size: u32,
) -> Result<Vec<u8>, AllocError>
    requires sound { IsSound schema.now }
    requires size { size ≡ length (payload_bytes layout schema.now message.now) }
    ensures { IfOk result (λ frame. frame.items ≡ frame_bytes layout schema.now message.now) }
{
    let row = schema.message(message.number);
    let header = Header {
        size,
        route: message.route,
        number: message.number,
        flags: body_flags(row, &message.body),
        seq: message.seq,
        transaction: message.transaction,
    };
    let mut frame = Vec::with_capacity(alloc, (size as usize).saturating_add(layout.header))?;
    put_mark(&mut frame, layout)?;
    put_header(&mut frame, &header)?;
    put_body(&mut frame, layout, schema, row, message.made, &message.body)?;
    Ok(frame)
}

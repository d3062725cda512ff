//! Writes the tables of a schema as text.

ghost use Rattle.std.specs.Prelude.{◌≡◌, ◌++◌, if◌then◌else◌, [], List, map, IfOk, OnOk, codes};
ghost use Rattle.std.specs.List.{flat_map};
ghost use Rattle.std.specs.Option.{option_copied};
ghost use Rattle.std.specs.Fmt.{decimal};
ghost use Rattle.actor_tables.specs.TableText as text;

use crate::words::{
    compress_word, direction_word, kind_word, level_word, protocol_name, semantics_word, type_name,
};
use ipdl_base::{MessageRow, ParamRow, ParamRows, ProtocolRow, Schema, Shape, TypeRow};
use itoa::Buffer;
use std::alloc::{AllocError, Global};

/// The approximate length of the line of a message, for which room is reserved before the first line.
const MESSAGE_LEN: usize = 80;

/// Appends a text, a name and another text.
fn push_around(
    out: &mut Vec<u8>,
    before: &[u8],
    name: &[u8],
    following: &[u8],
) -> Result<(), AllocError>
    ensures { OnOk result (out.new.items ≡ out.old.items ++ (before.now ++ name.now ++ following.now)) }
{
    out.extend_from_slice(before)?;
    out.extend_from_slice(name)?;
    out.extend_from_slice(following)
}

/// Appends a text and a name.
fn push_after(out: &mut Vec<u8>, before: &[u8], name: &[u8]) -> Result<(), AllocError>
    ensures { OnOk result (out.new.items ≡ out.old.items ++ (before.now ++ name.now)) }
{
    out.extend_from_slice(before)?;
    out.extend_from_slice(name)
}

/// Returns the text before the name of a protocol in the type of its actors.
fn before_actor(nullable: bool) -> &'static [u8]
    ensures { result.now ≡ if nullable then codes "nullable " else [] }
{
    if nullable { b"nullable " } else { b"" }
}

/// Returns the text before the name of a protocol in the type of its endpoints.
fn before_endpoint(managed: bool) -> &'static [u8]
    ensures { result.now ≡ if managed then codes "ManagedEndpoint<" else codes "Endpoint<" }
{
    if managed {
        b"ManagedEndpoint<"
    } else {
        b"Endpoint<"
    }
}

/// Appends a type.
fn push_shape(out: &mut Vec<u8>, schema: &Schema, shape: &Shape) -> Result<(), AllocError>
    ensures { OnOk result (out.new.items ≡ out.old.items ++ text.shape_text schema.now shape.now) }
{
    match shape {
        Shape::Builtin(builtin) => out.extend_from_slice(builtin.name()),
        Shape::Using(name) => out.extend_from_slice(name.as_slice()),
        Shape::Actor(number, nullable) => {
            push_after(out, before_actor(*nullable), protocol_name(schema, *number))
        }
        Shape::Named(number) => out.extend_from_slice(type_name(schema, *number)),
        Shape::Array(element) => {
            push_shape(out, schema, element)?;
            out.extend_from_slice(b"[]")
        }
        Shape::Maybe(element) => {
            push_shape(out, schema, element)?;
            out.extend_from_slice(b"?")
        }
        Shape::Unique(element) => {
            out.extend_from_slice(b"UniquePtr<")?;
            push_shape(out, schema, element)?;
            out.extend_from_slice(b">")
        }
        Shape::Endpoint(number, managed) => push_around(
            out,
            before_endpoint(*managed),
            protocol_name(schema, *number),
            b">",
        ),
    }
}

/// Appends a parameter: its type and its name.
fn push_param(out: &mut Vec<u8>, schema: &Schema, param: &ParamRow) -> Result<(), AllocError>
    ensures { OnOk result (out.new.items ≡ out.old.items ++ text.param_text schema.now param.now) }
{
    push_shape(out, schema, &param.shape)?;
    out.push(b' ')?;
    out.extend_from_slice(param.name.as_slice())
}

/// Appends a parameter with a comma before it.
fn push_next_param(out: &mut Vec<u8>, schema: &Schema, param: &ParamRow) -> Result<(), AllocError>
    ensures { OnOk result (out.new.items ≡ out.old.items ++ (codes ", " ++ text.param_text schema.now param.now)) }
{
    out.extend_from_slice(b", ")?;
    push_param(out, schema, param)
}

/// Appends parameters, each with a comma before it.
fn push_more_params(
    out: &mut Vec<u8>,
    schema: &Schema,
    params: &[ParamRow],
) -> Result<(), AllocError>
    ensures { OnOk result (out.new.items ≡ out.old.items ++ flat_map (λ p. codes ", " ++ text.param_text schema.now p) params.now) }
{
    for param in params {
        push_next_param(out, schema, param)?;
    }
    Ok(())
}

/// Appends parameters with a comma between each two.
fn push_listed_params(
    out: &mut Vec<u8>,
    schema: &Schema,
    params: &[ParamRow],
) -> Result<(), AllocError>
    ensures { OnOk result (out.new.items ≡ out.old.items ++ text.listed (map (text.param_text schema.now) params.now)) }
{
    let Some((first, more)) = params.split_first() else {
        return Ok(());
    };
    push_param(out, schema, first)?;
    push_more_params(out, schema, more)
}

/// Appends parameters in brackets.
fn push_params(out: &mut Vec<u8>, schema: &Schema, params: &[ParamRow]) -> Result<(), AllocError>
    ensures { OnOk result (out.new.items ≡ out.old.items ++ text.params_text schema.now params.now) }
{
    out.push(b'(')?;
    push_listed_params(out, schema, params)?;
    Ok(out.push(b')')?)
}

/// Appends the returns of a message, if it has any.
fn push_returns(
    out: &mut Vec<u8>,
    schema: &Schema,
    returns: Option<&ParamRows>,
) -> Result<(), AllocError>
    ensures { OnOk result (out.new.items ≡ out.old.items ++ text.returns_text schema.now (option_copied returns.entry)) }
{
    match returns {
        None => Ok(()),
        Some(returns) => {
            out.extend_from_slice(b" returns ")?;
            push_params(out, schema, returns.as_slice())
        }
    }
}

/// Appends a word and a space.
fn push_word(out: &mut Vec<u8>, word: &[u8]) -> Result<(), AllocError>
    ensures { OnOk result (out.new.items ≡ out.old.items ++ (word.now ++ codes " ")) }
{
    out.extend_from_slice(word)?;
    Ok(out.push(b' ')?)
}

/// Appends a number and a space.
fn push_number(out: &mut Vec<u8>, number: u64) -> Result<(), AllocError>
    ensures { OnOk result (out.new.items ≡ out.old.items ++ (decimal number ++ codes " ")) }
{
    let mut digits = Buffer::new();
    push_word(out, digits.format(number).as_bytes())
}

/// Appends the direction, the semantics and the level of a message.
fn push_sending(out: &mut Vec<u8>, message: &MessageRow) -> Result<(), AllocError>
    ensures { OnOk result (out.new.items ≡ out.old.items ++ (
        text.direction_text message.now.direction ++ codes " " ++ text.semantics_text message.now.semantics ++ codes " "
        ++ text.level_text message.now.level ++ codes " "
        )) }
{
    push_word(out, direction_word(message.direction))?;
    push_word(out, semantics_word(message.semantics))?;
    push_word(out, level_word(message.level))
}

/// Appends the compression and the kind of a message.
fn push_handling(out: &mut Vec<u8>, message: &MessageRow) -> Result<(), AllocError>
    ensures { OnOk result (out.new.items ≡ out.old.items ++ (
        text.compress_text message.now.compress ++ codes " " ++ text.kind_text message.now.kind message.now.lazy ++ codes " "
        )) }
{
    push_word(out, compress_word(message.compress))?;
    push_word(out, kind_word(message.kind, message.lazy))
}

/// Appends the part of a message's line before the name.
fn push_message_head(out: &mut Vec<u8>, message: &MessageRow) -> Result<(), AllocError>
    ensures { OnOk result (out.new.items ≡ out.old.items ++ (
        codes "message " ++ decimal message.now.number ++ codes " " ++ text.direction_text message.now.direction
        ++ codes " " ++ text.semantics_text message.now.semantics ++ codes " " ++ text.level_text message.now.level
        ++ codes " " ++ text.compress_text message.now.compress ++ codes " "
        ++ text.kind_text message.now.kind message.now.lazy ++ codes " "
        )) }
{
    out.extend_from_slice(b"message ")?;
    push_number(out, message.number as u64)?;
    push_sending(out, message)?;
    push_handling(out, message)
}

/// Appends the line of a message.
fn push_message(out: &mut Vec<u8>, schema: &Schema, message: &MessageRow) -> Result<(), AllocError>
    ensures { OnOk result (out.new.items ≡ out.old.items ++ text.message_text schema.now message.now) }
{
    push_message_head(out, message)?;
    out.extend_from_slice(message.name.as_slice())?;
    push_params(out, schema, message.params.as_slice())?;
    push_returns(out, schema, message.returns.as_ref())?;
    out.extend_from_slice(b"\n")
}

/// Appends the lines of messages.
fn push_messages(
    out: &mut Vec<u8>,
    schema: &Schema,
    messages: &[MessageRow],
) -> Result<(), AllocError>
    ensures { OnOk result (out.new.items ≡ out.old.items ++ flat_map (text.message_text schema.now) messages.now) }
{
    for message in messages {
        push_message(out, schema, message)?;
    }
    Ok(())
}

/// Appends the lines of a protocol's managers.
fn push_managers(out: &mut Vec<u8>, schema: &Schema, managers: &[u32]) -> Result<(), AllocError>
    ensures { OnOk result (out.new.items ≡ out.old.items ++ flat_map (text.manager_text schema.now) managers.now) }
{
    for manager in managers {
        push_around(out, b"manager ", protocol_name(schema, *manager), b"\n")?;
    }
    Ok(())
}

/// Appends the lines of a protocol's managed protocols.
fn push_managed(out: &mut Vec<u8>, schema: &Schema, manages: &[u32]) -> Result<(), AllocError>
    ensures { OnOk result (out.new.items ≡ out.old.items ++ flat_map (text.managed_text schema.now) manages.now) }
{
    for managed in manages {
        push_around(out, b"manages ", protocol_name(schema, *managed), b"\n")?;
    }
    Ok(())
}

/// Appends a protocol's own line.
fn push_protocol_line(
    out: &mut Vec<u8>,
    number: usize,
    protocol: &ProtocolRow,
) -> Result<(), AllocError>
    ensures { OnOk result (out.new.items ≡ out.old.items ++ (
        codes "protocol " ++ decimal number ++ codes " " ++ protocol.now.name ++ codes " " ++ text.semantics_text protocol.now.semantics ++ codes " "
        ++ text.level_text protocol.now.level ++ codes "\n"
        )) }
{
    out.extend_from_slice(b"protocol ")?;
    push_number(out, number as u64)?;
    push_word(out, protocol.name.as_slice())?;
    push_word(out, semantics_word(protocol.semantics))?;
    out.extend_from_slice(level_word(protocol.level))?;
    Ok(out.push(b'\n')?)
}

/// Appends the lines of a protocol.
fn push_protocol(
    out: &mut Vec<u8>,
    schema: &Schema,
    number: usize,
    protocol: &ProtocolRow,
) -> Result<(), AllocError>
    ensures { OnOk result (out.new.items ≡ out.old.items ++ text.protocol_text schema.now number protocol.now) }
{
    push_protocol_line(out, number, protocol)?;
    push_managers(out, schema, protocol.managers.as_slice())?;
    push_managed(out, schema, protocol.manages.as_slice())?;
    out.reserve(MESSAGE_LEN.saturating_mul(protocol.messages.len()))?;
    push_messages(out, schema, protocol.messages.as_slice())
}

/// Appends the lines of protocols.
fn push_protocols(
    out: &mut Vec<u8>,
    schema: &Schema,
    protocols: &[ProtocolRow],
) -> Result<(), AllocError>
    ensures { OnOk result (out.new.items ≡ out.old.items ++ text.protocols_text schema.now 0 protocols.now) }
{
    for number in 0..protocols.len() {
        push_protocol(out, schema, number, &protocols[number])?;
    }
    Ok(())
}

/// Appends types, each with a comma before it.
fn push_more_shapes(out: &mut Vec<u8>, schema: &Schema, shapes: &[Shape]) -> Result<(), AllocError>
    ensures { OnOk result (out.new.items ≡ out.old.items ++ flat_map (λ s. codes ", " ++ text.shape_text schema.now s) shapes.now) }
{
    for shape in shapes {
        out.extend_from_slice(b", ")?;
        push_shape(out, schema, shape)?;
    }
    Ok(())
}

/// Appends types with a comma between each two.
fn push_listed_shapes(
    out: &mut Vec<u8>,
    schema: &Schema,
    shapes: &[Shape],
) -> Result<(), AllocError>
    ensures { OnOk result (out.new.items ≡ out.old.items ++ text.listed (map (text.shape_text schema.now) shapes.now)) }
{
    let Some((first, more)) = shapes.split_first() else {
        return Ok(());
    };
    push_shape(out, schema, first)?;
    push_more_shapes(out, schema, more)
}

/// Appends the line of a struct.
fn push_struct(
    out: &mut Vec<u8>,
    schema: &Schema,
    number: usize,
    name: &[u8],
    fields: &[ParamRow],
) -> Result<(), AllocError>
    ensures { OnOk result (out.new.items ≡ out.old.items ++ (
        codes "struct " ++ decimal number ++ codes " " ++ name.now ++ codes " " ++ text.params_text schema.now fields.now ++ codes "\n"
        )) }
{
    out.extend_from_slice(b"struct ")?;
    push_number(out, number as u64)?;
    push_word(out, name)?;
    push_params(out, schema, fields)?;
    Ok(out.push(b'\n')?)
}

/// Appends the line of a union.
fn push_union(
    out: &mut Vec<u8>,
    schema: &Schema,
    number: usize,
    name: &[u8],
    components: &[Shape],
) -> Result<(), AllocError>
    ensures { OnOk result (out.new.items ≡ out.old.items ++ (
        codes "union " ++ decimal number ++ codes " " ++ name.now ++ codes " (" ++ text.listed (map (text.shape_text schema.now) components.now) ++ codes ")\n"
        )) }
{
    out.extend_from_slice(b"union ")?;
    push_number(out, number as u64)?;
    push_after(out, name, b" (")?;
    push_listed_shapes(out, schema, components)?;
    out.extend_from_slice(b")\n")
}

/// Appends the line of a struct or a union.
fn push_type(
    out: &mut Vec<u8>,
    schema: &Schema,
    number: usize,
    row: &TypeRow,
) -> Result<(), AllocError>
    ensures { OnOk result (out.new.items ≡ out.old.items ++ text.type_text schema.now number row.now) }
{
    match row {
        TypeRow::Struct(name, fields) => {
            push_struct(out, schema, number, name.as_slice(), fields.as_slice())
        }
        TypeRow::Union(name, components) => {
            push_union(out, schema, number, name.as_slice(), components.as_slice())
        }
    }
}

/// Appends the lines of structs and unions.
fn push_types(out: &mut Vec<u8>, schema: &Schema, types: &[TypeRow]) -> Result<(), AllocError>
    ensures { OnOk result (out.new.items ≡ out.old.items ++ text.types_text schema.now 0 types.now) }
{
    for number in 0..types.len() {
        push_type(out, schema, number, &types[number])?;
    }
    Ok(())
}

/// Returns the tables of a schema as text: each protocol in the order of numbers, with its
/// managers, its managed protocols and its messages, and then each struct and union
/// (docs/tables.md).
pub fn table_text(alloc: Global, schema: &Schema) -> Result<Vec<u8>, AllocError>
    ensures { IfOk result (λ written. written.items ≡ text.table_text schema.now) }
{
    let mut out = Vec::new(alloc);
    push_protocols(&mut out, schema, schema.protocols.as_slice())?;
    push_types(&mut out, schema, schema.types.as_slice())?;
    Ok(out)
}

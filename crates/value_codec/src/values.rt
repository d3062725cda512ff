//! Values of a payload, read by their types.
//!
//! A value is read with a depth, the number of levels to which values may nest from there. Every value has a
//! byte of
//! its own, so a depth above the number of bytes is always enough.

ghost use Rattle.std.specs.Prelude.{◌≡◌, ◌≤◌, slice_get};
ghost use Rattle.ipdl_base.specs.Plain.{plain, plain_values};
ghost use Rattle.value_codec.specs.Reading as reading;
ghost use Rattle.value_codec.specs.Reading.{Gives, value_at};

use crate::fault::Refusal;
use crate::reading::{broken, counted, field, flag, id, short, struct_byte, word};
use byteorder::{ByteOrder, LittleEndian};
use ipdl_base::{Builtin, Name, ParamRow, Rule, Schema, Shape, TypeRow, Value, Values};
use std::alloc::Global;
use value_types::Layout;

/// Takes a truth value.
#[tactic(auto, unfolding(crate::specs::Reading::flag_value_at))]
fn truth(layout: Layout, bytes: &[u8]) -> Result<(Value, &[u8]), Refusal>
    ensures { Gives (λ x. (plain x.0, x.1.now)) result (reading.flag_value_at layout bytes.now) }
{
    let (b, rest) = flag(layout, bytes)?;
    Ok((Value::Bool(b), rest))
}

/// Takes a signed number of `count` bytes.
#[tactic(auto, unfolding(crate::specs::Reading::signed_at))]
fn signed(layout: Layout, count: usize, bytes: &[u8]) -> Result<(Value, &[u8]), Refusal>
    requires low { 1 ≤ count }
    requires high { count ≤ 8 }
    ensures { Gives (λ x. (plain x.0, x.1.now)) result (reading.signed_at layout count bytes.now) }
{
    let (front, rest) = field(layout, count, bytes)?;
    Ok((Value::Int(LittleEndian::read_int128(front, count)), rest))
}

/// Takes an unsigned number of `count` bytes.
#[tactic(auto, unfolding(crate::specs::Reading::unsigned_at))]
fn unsigned(layout: Layout, count: usize, bytes: &[u8]) -> Result<(Value, &[u8]), Refusal>
    requires low { 1 ≤ count }
    requires high { count ≤ 8 }
    ensures { Gives (λ x. (plain x.0, x.1.now)) result (reading.unsigned_at layout count bytes.now) }
{
    let (front, rest) = field(layout, count, bytes)?;
    let number = LittleEndian::read_uint(front, count);
    Ok((Value::Int(i128::from(number)), rest))
}

/// Takes the bits of a float or a double.
#[tactic(auto, unfolding(crate::specs::Reading::bits_at))]
fn bits(layout: Layout, count: usize, bytes: &[u8]) -> Result<(Value, &[u8]), Refusal>
    requires low { 1 ≤ count }
    requires high { count ≤ 8 }
    ensures { Gives (λ x. (plain x.0, x.1.now)) result (reading.bits_at layout count bytes.now) }
{
    let (front, rest) = field(layout, count, bytes)?;
    Ok((Value::Bits(LittleEndian::read_uint(front, count)), rest))
}

/// Takes a text.
#[tactic(auto, unfolding(crate::specs::Reading::text_at))]
fn text(alloc: Global, layout: Layout, bytes: &[u8]) -> Result<(Value, &[u8]), Refusal>
    ensures { Gives (λ x. (plain x.0, x.1.now)) result (reading.text_at layout bytes.now) }
{
    let (front, rest) = counted(layout, true, bytes)?;
    let name = Name::from_slice(alloc, front)?;
    Ok((Value::Text(name), rest))
}

/// Takes bytes of any kind.
#[tactic(auto, unfolding(crate::specs::Reading::bytes_at))]
fn any_bytes(alloc: Global, layout: Layout, bytes: &[u8]) -> Result<(Value, &[u8]), Refusal>
    ensures { Gives (λ x. (plain x.0, x.1.now)) result (reading.bytes_at layout bytes.now) }
{
    let (front, rest) = counted(layout, false, bytes)?;
    let name = Name::from_slice(alloc, front)?;
    Ok((Value::Bytes(name), rest))
}

/// Takes an actor.
#[tactic(auto, unfolding(crate::specs::Reading::actor_at))]
fn actor(nullable: bool, bytes: &[u8]) -> Result<(Value, &[u8]), Refusal>
    ensures { Gives (λ x. (plain x.0, x.1.now)) result (reading.actor_at nullable bytes.now) }
{
    let (id, rest) = id(nullable, bytes)?;
    Ok((Value::Actor(id), rest))
}

/// Takes a value of a builtin.
fn builtin(
    alloc: Global,
    layout: Layout,
    builtin: Builtin,
    bytes: &[u8],
) -> Result<(Value, &[u8]), Refusal>
    ensures { Gives (λ x. (plain x.0, x.1.now)) result (reading.builtin_at layout builtin bytes.now) }
{
    match builtin {
        Builtin::Bool => truth(layout, bytes),
        Builtin::Char | Builtin::Int8 => signed(layout, 1, bytes),
        Builtin::Uint8 => unsigned(layout, 1, bytes),
        Builtin::Short | Builtin::Int16 => signed(layout, 2, bytes),
        Builtin::Uint16 => unsigned(layout, 2, bytes),
        Builtin::Int | Builtin::Int32 => signed(layout, 4, bytes),
        Builtin::Uint32 | Builtin::NsResult => unsigned(layout, 4, bytes),
        Builtin::Long | Builtin::Int64 | Builtin::IntPtr => signed(layout, 8, bytes),
        Builtin::Uint64 | Builtin::UintPtr => unsigned(layout, 8, bytes),
        Builtin::Float => bits(layout, 4, bytes),
        Builtin::Double => bits(layout, 8, bytes),
        Builtin::NsString => text(alloc, layout, bytes),
        Builtin::NsCString | Builtin::ByteBuf => any_bytes(alloc, layout, bytes),
        Builtin::Shmem | Builtin::FileDescriptor => Err(broken(Rule::BAD_VALUE, bytes)),
    }
}

/// Takes a value of a type.
#[cycle(reading)]
pub(crate) fn value<'b>(
    alloc: Global,
    layout: Layout,
    schema: &Schema,
    shape: &Shape,
    depth: usize,
    bytes: &'b [u8],
) -> Result<(Value, &'b [u8]), Refusal>
    ensures { Gives (λ x. (plain x.0, x.1.now)) result (value_at depth layout schema.now shape.now bytes.now) }
{
    if depth == 0 {
        return Err(short());
    }
    value_of_shape(alloc, layout, schema, shape, depth - 1, bytes)
}

/// Takes a value of a type, where the values inside it have this depth.
#[cycle(reading)]
fn value_of_shape<'b>(
    alloc: Global,
    layout: Layout,
    schema: &Schema,
    shape: &Shape,
    depth: usize,
    bytes: &'b [u8],
) -> Result<(Value, &'b [u8]), Refusal>
    ensures { Gives (λ x. (plain x.0, x.1.now)) result (reading.shape_at (value_at depth layout schema.now) layout schema.now shape.now bytes.now) }
{
    match shape {
        Shape::Builtin(kind) => builtin(alloc, layout, *kind, bytes),
        Shape::Using(_) => any_bytes(alloc, layout, bytes),
        Shape::Actor(_, nullable) => actor(*nullable, bytes),
        Shape::Named(number) => { named(alloc, layout, schema, *number, depth, bytes) }
        Shape::Array(element) => array(alloc, layout, schema, element, depth, bytes),
        Shape::Maybe(held) | Shape::Unique(held) => {
            maybe(alloc, layout, schema, held, depth, bytes)
        }
        Shape::Endpoint(_, _) => Err(broken(Rule::BAD_VALUE, bytes)),
    }
}

/// Takes a value of the type with this number.
#[cycle(reading)]
fn named<'b>(
    alloc: Global,
    layout: Layout,
    schema: &Schema,
    number: u32,
    depth: usize,
    bytes: &'b [u8],
) -> Result<(Value, &'b [u8]), Refusal>
    ensures { Gives (λ x. (plain x.0, x.1.now)) result
        (reading.row_at (value_at depth layout schema.now) layout (slice_get schema.now.types number) bytes.now) }
{
    match schema.types.as_slice().get(number as usize) {
        Some(TypeRow::Struct(_, fields)) => {
            structure(alloc, layout, schema, fields.as_slice(), depth, bytes)
        }
        Some(TypeRow::Union(_, components)) => {
            union_value(alloc, layout, schema, components.as_slice(), depth, bytes)
        }
        None => Err(broken(Rule::BAD_VALUE, bytes)),
    }
}

/// Takes an array.
#[cycle(reading)]
#[tactic(auto, unfolding(crate::specs::Reading::array_at))]
fn array<'b>(
    alloc: Global,
    layout: Layout,
    schema: &Schema,
    element: &Shape,
    depth: usize,
    bytes: &'b [u8],
) -> Result<(Value, &'b [u8]), Refusal>
    ensures { Gives (λ x. (plain x.0, x.1.now)) result (reading.array_at (value_at depth layout schema.now) element.now bytes.now) }
{
    let (count, rest) = word(bytes)?;
    let (elements, rest) = elements(alloc, layout, schema, element, depth, count, rest)?;
    Ok((Value::Array(elements), rest))
}

/// Takes `count` values of one type.
#[cycle(reading)]
#[tactic(auto, unfolding(crate::specs::Reading::elements_at))]
fn elements<'b>(
    alloc: Global,
    layout: Layout,
    schema: &Schema,
    element: &Shape,
    depth: usize,
    count: u32,
    bytes: &'b [u8],
) -> Result<(Values, &'b [u8]), Refusal>
    ensures { Gives (λ x. (plain_values x.0, x.1.now)) result (reading.elements_at (value_at depth layout schema.now) element.now count bytes.now) }
{
    if count == 0 {
        return Ok((Values::Nothing, bytes));
    }
    let (first, rest) = value(alloc, layout, schema, element, depth, bytes)?;
    let (others, rest) = elements(alloc, layout, schema, element, depth, count - 1, rest)?;
    let values = Values::First(Box::new(alloc, first)?, Box::new(alloc, others)?);
    Ok((values, rest))
}

/// Takes a value for each field or parameter.
#[cycle(reading)]
#[tactic(auto, unfolding(crate::specs::Reading::values_at))]
pub(crate) fn values<'b>(
    alloc: Global,
    layout: Layout,
    schema: &Schema,
    fields: &[ParamRow],
    depth: usize,
    bytes: &'b [u8],
) -> Result<(Values, &'b [u8]), Refusal>
    ensures { Gives (λ x. (plain_values x.0, x.1.now)) result (reading.values_at (value_at depth layout schema.now) fields.now bytes.now) }
{
    match fields.split_first() {
        None => Ok((Values::Nothing, bytes)),
        Some((field, more)) => {
            let (first, rest) = value(alloc, layout, schema, &field.shape, depth, bytes)?;
            let (others, rest) = values(alloc, layout, schema, more, depth, rest)?;
            let values = Values::First(Box::new(alloc, first)?, Box::new(alloc, others)?);
            Ok((values, rest))
        }
    }
}

/// Takes a maybe or a `UniquePtr`.
#[cycle(reading)]
#[tactic(auto, unfolding(crate::specs::Reading::maybe_at, crate::specs::Reading::held_at))]
fn maybe<'b>(
    alloc: Global,
    layout: Layout,
    schema: &Schema,
    held: &Shape,
    depth: usize,
    bytes: &'b [u8],
) -> Result<(Value, &'b [u8]), Refusal>
    ensures { Gives (λ x. (plain x.0, x.1.now)) result (reading.maybe_at (value_at depth layout schema.now) layout held.now bytes.now) }
{
    let (is_there, rest) = flag(layout, bytes)?;
    if !is_there {
        return Ok((Value::Maybe(None), rest));
    }
    let (held, rest) = value(alloc, layout, schema, held, depth, rest)?;
    Ok((Value::Maybe(Some(Box::new(alloc, held)?)), rest))
}

/// Takes a struct.
#[cycle(reading)]
#[tactic(auto, unfolding(crate::specs::Reading::fields_at))]
fn structure<'b>(
    alloc: Global,
    layout: Layout,
    schema: &Schema,
    fields: &[ParamRow],
    depth: usize,
    bytes: &'b [u8],
) -> Result<(Value, &'b [u8]), Refusal>
    ensures { Gives (λ x. (plain x.0, x.1.now)) result (reading.fields_at (value_at depth layout schema.now) layout fields.now bytes.now) }
{
    let rest = struct_byte(layout, bytes)?;
    let (found, rest) = values(alloc, layout, schema, fields, depth, rest)?;
    Ok((Value::Struct(found), rest))
}

/// Takes a union.
#[cycle(reading)]
#[tactic(auto, unfolding(crate::specs::Reading::union_at, crate::specs::Reading::component_at))]
fn union_value<'b>(
    alloc: Global,
    layout: Layout,
    schema: &Schema,
    components: &[Shape],
    depth: usize,
    bytes: &'b [u8],
) -> Result<(Value, &'b [u8]), Refusal>
    ensures { Gives (λ x. (plain x.0, x.1.now)) result (reading.union_at (value_at depth layout schema.now) components.now bytes.now) }
{
    let (index, rest) = word(bytes)?;
    match components.get(index as usize) {
        None => Err(broken(Rule::BAD_TAG, bytes)),
        Some(component) => {
            let (held, rest) = value(alloc, layout, schema, component, depth, rest)?;
            Ok((Value::Union(index, Box::new(alloc, held)?), rest))
        }
    }
}

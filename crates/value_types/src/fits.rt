//! Decides which values have a type.
ghost use Rattle.std.specs.Prelude.{◌≡◌, ◌↔◌, IsTrue};
ghost use Rattle.value_types.specs.HasType.{HasType, HaveTypes, AllHaveType, IsInRange, IsWithinBits, IsActorOf};

use crate::shapes::{builtin_of, component_of, element_of, fields_of, held_by, is_bytes, range_of};
use ipdl_base::{Builtin, ParamRow, Schema, Shape, Value, Values};

/// Returns whether a whole number is in the range of a type.
fn is_in_range(shape: &Shape, number: i128) -> bool
    ensures { IsTrue result ↔ IsInRange shape.now number }
{
    match builtin_of(shape) {
        Some(builtin) => match range_of(builtin) {
            Some((least, greatest)) => least <= number && number <= greatest,
            None => false,
        },
        None => false,
    }
}

/// Returns whether bits fit in the number of bits that a type has.
fn is_within_bits(shape: &Shape, bits: u64) -> bool
    ensures { IsTrue result ↔ IsWithinBits shape.now bits }
{
    match builtin_of(shape) {
        Some(Builtin::Float) => bits < 0x1_0000_0000,
        Some(Builtin::Double) => true,
        _ => false,
    }
}

/// Returns whether an id may be that of an actor of a type.
fn is_actor_of(shape: &Shape, id: i32) -> bool
    ensures { IsTrue result ↔ IsActorOf shape.now id }
{
    match shape {
        Shape::Actor(_, nullable) => id != 0 || *nullable,
        _ => false,
    }
}

/// Returns whether a value has a type.
#[cycle(fits)]
fn has_type(value: &Value, schema: &Schema, shape: &Shape) -> bool
    ensures { IsTrue result ↔ HasType schema.now shape.now value.now }
{
    match value {
        Value::Bool(_) => builtin_of(shape) == Some(Builtin::Bool),
        Value::Int(number) => is_in_range(shape, *number),
        Value::Text(text) => {
            builtin_of(shape) == Some(Builtin::NsString)
                && std::str::from_utf8(text.as_slice()).is_ok()
        }
        Value::Bytes(_) => is_bytes(shape),
        Value::Bits(bits) => is_within_bits(shape, *bits),
        Value::Struct(values) => match fields_of(schema, shape) {
            Some(fields) => have_types(values, schema, fields),
            None => false,
        },
        Value::Union(index, held) => match component_of(schema, shape, *index) {
            Some(component) => has_type(held, schema, component),
            None => false,
        },
        Value::Array(values) => match element_of(shape) {
            Some(element) => all_have_type(values, schema, element),
            None => false,
        },
        Value::Maybe(None) => held_by(shape).is_some(),
        Value::Maybe(Some(held)) => match held_by(shape) {
            Some(inner) => has_type(held, schema, inner),
            None => false,
        },
        Value::Actor(id) => is_actor_of(shape, *id),
    }
}

/// Returns whether each value has the type.
#[cycle(fits)]
fn all_have_type(values: &Values, schema: &Schema, shape: &Shape) -> bool
    ensures { IsTrue result ↔ AllHaveType schema.now shape.now values.now }
{
    match values {
        Values::Nothing => true,
        Values::First(value, rest) => {
            has_type(value, schema, shape) && all_have_type(rest, schema, shape)
        }
    }
}

/// Returns whether there is one value for each field, of the type of that field.
#[cycle(fits)]
fn have_types(values: &Values, schema: &Schema, fields: &[ParamRow]) -> bool
    ensures { IsTrue result ↔ HaveTypes schema.now fields.now values.now }
{
    match (values, fields.split_first()) {
        (Values::Nothing, None) => true,
        (Values::First(value, rest), Some((field, more))) => {
            has_type(value, schema, &field.shape) && have_types(rest, schema, more)
        }
        _ => false,
    }
}

/// Returns whether a value has a type. A named type that is not in the schema has no values. Takes no memory.
pub fn value_fits(schema: &Schema, shape: &Shape, value: &Value) -> bool
    ensures { IsTrue result ↔ HasType schema.now shape.now value.now }
{
    has_type(value, schema, shape)
}

/// Returns whether there is one value for each parameter, of the type of that parameter. Takes no memory.
pub fn values_fit(schema: &Schema, params: &[ParamRow], values: &Values) -> bool
    ensures { IsTrue result ↔ HaveTypes schema.now params.now values.now }
{
    have_types(values, schema, params)
}

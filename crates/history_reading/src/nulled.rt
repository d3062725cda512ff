//! The actors in values: the missing ones, the dead ones, and values with null for dead actors.
ghost use Rattle.std.specs.Prelude.{◌≡◌, ◌++◌, option_map, find, is_some};
ghost use Rattle.std.specs.Option.{option_copied};
ghost use Rattle.history_reading.specs.EndReading.{lives};
ghost use Rattle.history_reading.specs.EndReadings.{end_view};
ghost use Rattle.history_reading.specs.Nulled as nulled;
ghost use Rattle.history_reading.specs.ActorQuery.{first_wanted, is_wanted};

use crate::end_reading::EndReading;
use crate::shapes::{component_of, element_of, fields_of, held_by, split_fields};
use ipdl_base::{ParamRow, Schema, Shape, Value, Values};

/// The actors in values that a search is for: those that are missing, or those that are dead.
#[derive(Clone, Copy)]
pub enum ActorQuery {
    Missing,
    Dead,
}

/// Whether a search is for an actor, by whether its type is nullable and by its id.
fn is_wanted(own: &EndReading<'_>, wanted: ActorQuery, nullable: bool, id: i32) -> bool
    ensures { result ≡ is_wanted wanted (lives (end_view own.now)) (record { nullable = nullable; id = id }) }
{
    match wanted {
        ActorQuery::Missing => !nullable && !own.lives(id),
        ActorQuery::Dead => id != 0 && !own.lives(id),
    }
}

/// Returns an actor, if its type is one of actors and the search is for it.
fn wanted_actor(
    own: &EndReading<'_>,
    wanted: ActorQuery,
    shape: Option<&Shape>,
    id: i32,
) -> Option<i32>
    ensures { result ≡ first_wanted wanted (lives (end_view own.now)) (nulled.named_actors (option_copied shape.entry) id) }
{
    match shape {
        Some(Shape::Actor(_, nullable)) => {
            if is_wanted(own, wanted, *nullable, id) {
                Some(id)
            } else {
                None
            }
        }
        _ => None,
    }
}

/// Returns the first actor found in a value of a type.
#[cycle(wanted)]
fn wanted_in(
    value: &Value,
    schema: &Schema,
    own: &EndReading<'_>,
    wanted: ActorQuery,
    shape: Option<&Shape>,
) -> Option<i32>
    ensures { result ≡ first_wanted wanted (lives (end_view own.now)) (nulled.actors_in schema.now (option_copied shape.entry) value.now) }
{
    match value {
        Value::Bool(_) | Value::Int(_) | Value::Text(_) | Value::Bytes(_) | Value::Bits(_) => None,
        Value::Struct(values) => {
            wanted_in_fields(values, schema, own, wanted, fields_of(schema, shape))
        }
        Value::Union(index, held) => wanted_in(
            held,
            schema,
            own,
            wanted,
            component_of(schema, shape, *index),
        ),
        Value::Array(values) => wanted_in_each(values, schema, own, wanted, element_of(shape)),
        Value::Maybe(None) => None,
        Value::Maybe(Some(held)) => wanted_in(held, schema, own, wanted, held_by(shape)),
        Value::Actor(id) => wanted_actor(own, wanted, shape, *id),
    }
}

/// Returns the first actor found in values of one type.
#[cycle(wanted)]
fn wanted_in_each(
    values: &Values,
    schema: &Schema,
    own: &EndReading<'_>,
    wanted: ActorQuery,
    shape: Option<&Shape>,
) -> Option<i32>
    ensures { result ≡ first_wanted wanted (lives (end_view own.now)) (nulled.actors_in_each schema.now (option_copied shape.entry) values.now) }
{
    match values {
        Values::Nothing => None,
        Values::First(value, rest) => match wanted_in(value, schema, own, wanted, shape) {
            Some(id) => Some(id),
            None => wanted_in_each(rest, schema, own, wanted, shape),
        },
    }
}

/// Returns the first actor found in values of the types of fields.
#[cycle(wanted)]
fn wanted_in_fields(
    values: &Values,
    schema: &Schema,
    own: &EndReading<'_>,
    wanted: ActorQuery,
    fields: &[ParamRow],
) -> Option<i32>
    ensures { result ≡ first_wanted wanted (lives (end_view own.now)) (nulled.actors_in_fields schema.now fields.now values.now) }
{
    match values {
        Values::Nothing => None,
        Values::First(value, rest) => {
            let (shape, others) = split_fields(fields);
            match wanted_in(value, schema, own, wanted, shape) {
                Some(id) => Some(id),
                None => wanted_in_fields(rest, schema, own, wanted, others),
            }
        }
    }
}

/// Returns the first missing actor in the values of parameters.
pub fn missing(
    schema: &Schema,
    own: &EndReading<'_>,
    params: &[ParamRow],
    values: &Values,
) -> Option<i32>
    ensures { result ≡ nulled.missing schema.now (lives (end_view own.now)) params.now values.now }
{
    wanted_in_fields(values, schema, own, ActorQuery::Missing, params)
}

/// Whether each actor in the values of parameters is null or lives.
pub fn all_live(schema: &Schema, own: &EndReading<'_>, params: &[ParamRow], values: &Values) -> bool
    ensures { result ≡ nulled.all_live schema.now (lives (end_view own.now)) params.now values.now }
{
    wanted_in_fields(values, schema, own, ActorQuery::Dead, params).is_none()
}

/// Whether a type is a nullable one of actors.
fn is_nullable(shape: Option<&Shape>) -> bool
    ensures { result ≡ nulled.is_nullable (option_copied shape.entry) }
{
    match shape {
        Some(Shape::Actor(_, nullable)) => *nullable,
        _ => false,
    }
}

/// Returns an actor of a type, or null if the actor does not live and the type is nullable.
fn nulled_id(own: &EndReading<'_>, shape: Option<&Shape>, id: i32) -> i32
    ensures { result ≡ nulled.nulled_id (lives (end_view own.now)) (option_copied shape.entry) id }
{
    if is_nullable(shape) && !own.lives(id) {
        0
    } else {
        id
    }
}

/// Whether a value is another of a type, in which dead actors are null.
#[cycle(nulled)]
fn same_nulled(
    sent: &Value,
    schema: &Schema,
    own: &EndReading<'_>,
    shape: Option<&Shape>,
    got: &Value,
) -> bool
    ensures { result ≡ nulled.same_value (nulled.nulled schema.now (lives (end_view own.now)) (option_copied shape.entry) sent.now) got.now }
{
    match (sent, got) {
        (Value::Bool(a), Value::Bool(b)) => *a == *b,
        (Value::Int(a), Value::Int(b)) => *a == *b,
        (Value::Text(a), Value::Text(b)) => a.as_slice() == b.as_slice(),
        (Value::Bytes(a), Value::Bytes(b)) => a.as_slice() == b.as_slice(),
        (Value::Bits(a), Value::Bits(b)) => *a == *b,
        (Value::Struct(a), Value::Struct(b)) => {
            same_nulled_fields(a, schema, own, fields_of(schema, shape), b)
        }
        (Value::Union(i, a), Value::Union(j, b)) => {
            *i == *j && same_nulled(a, schema, own, component_of(schema, shape, *i), b)
        }
        (Value::Array(a), Value::Array(b)) => {
            same_nulled_each(a, schema, own, element_of(shape), b)
        }
        (Value::Maybe(None), Value::Maybe(None)) => true,
        (Value::Maybe(Some(a)), Value::Maybe(Some(b))) => {
            same_nulled(a, schema, own, held_by(shape), b)
        }
        (Value::Actor(a), Value::Actor(b)) => nulled_id(own, shape, *a) == *b,
        _ => false,
    }
}

/// Whether values are others of one type, in which dead actors are null.
#[cycle(nulled)]
fn same_nulled_each(
    sent: &Values,
    schema: &Schema,
    own: &EndReading<'_>,
    shape: Option<&Shape>,
    got: &Values,
) -> bool
    ensures { result ≡ nulled.same_values (nulled.nulled_each schema.now (lives (end_view own.now)) (option_copied shape.entry) sent.now) got.now }
{
    match (sent, got) {
        (Values::Nothing, Values::Nothing) => true,
        (Values::First(a, xs), Values::First(b, ys)) => {
            same_nulled(a, schema, own, shape, b) && same_nulled_each(xs, schema, own, shape, ys)
        }
        _ => false,
    }
}

/// Whether values are others of the types of fields, in which dead actors are null.
#[cycle(nulled)]
fn same_nulled_fields(
    sent: &Values,
    schema: &Schema,
    own: &EndReading<'_>,
    fields: &[ParamRow],
    got: &Values,
) -> bool
    ensures { result ≡ nulled.same_values (nulled.nulled_fields schema.now (lives (end_view own.now)) fields.now sent.now) got.now }
{
    match (sent, got) {
        (Values::Nothing, Values::Nothing) => true,
        (Values::First(a, xs), Values::First(b, ys)) => {
            let (shape, others) = split_fields(fields);
            same_nulled(a, schema, own, shape, b) && same_nulled_fields(xs, schema, own, others, ys)
        }
        _ => false,
    }
}

/// Whether the second values are the first of these types, with dead actors null.
pub fn is_nulled(
    schema: &Schema,
    own: &EndReading<'_>,
    params: &[ParamRow],
    sent: &Values,
    got: &Values,
) -> bool
    ensures { result ≡ nulled.is_nulled schema.now (lives (end_view own.now)) params.now sent.now got.now }
{
    same_nulled_fields(sent, schema, own, params, got)
}

//! The actors in values: which of them live, and null in place of those that do not.
ghost use Rattle.std.specs.Prelude.{◌≡◌, find};
ghost use Rattle.channel_model.specs.Refusals.{actors_of, lives_otherwise};
ghost use Rattle.channel_model.specs.ValueActors.{lives_as, actor_at, actors_in, actors_in_all, actors_in_parts, nulled_value, nulled_all, nulled, received_id};
ghost use Rattle.actor_tree.specs.Tree.{without};
ghost use Rattle.end_parts.specs.SoughtActors.{is_sought, first_id, living_beside};

use actor_tree::Tree;
use ipdl_base::{
    Body, Message, MessageRow, ParamRow, Schema, Shape, Value, Values, returns_of_row,
};
use value_types::{component_of, element_of, fields_of, held_by};

/// The actors in values that a search is for.
#[derive(Clone, Copy)]
pub enum ActorTest {
    /// Those that are not null and do not live with the protocol of their type.
    Dead,
    /// Those that do not live so, if their type is not nullable.
    Missing,
    /// Those that live with another protocol.
    Otherwise,
}

/// Whether an actor of this id and protocol lives.
pub fn lives_as(tree: &Tree, protocol: u32, id: i32) -> bool
    ensures { result ≡ lives_as tree.now protocol id }
{
    match tree.lookup(id) {
        Some(actor) => actor.protocol == protocol,
        None => false,
    }
}

/// Whether an actor of this id lives with another protocol.
pub fn lives_otherwise(tree: &Tree, protocol: u32, id: i32) -> bool
    ensures { result ≡ lives_otherwise tree.now protocol id }
{
    match tree.lookup(id) {
        Some(actor) => actor.protocol != protocol,
        None => false,
    }
}

// Whether a search is for this actor of a value.
fn is_sought(test: ActorTest, tree: &Tree, id: i32, protocol: u32, nullable: bool) -> bool
    ensures { result ≡ is_sought test tree.now (record { id = id; protocol = protocol; nullable = nullable }) }
{
    match test {
        ActorTest::Dead => id != 0 && !lives_as(tree, protocol, id),
        ActorTest::Missing => !nullable && !lives_as(tree, protocol, id),
        ActorTest::Otherwise => lives_otherwise(tree, protocol, id),
    }
}

// Returns the actor of a type if the search is for it.
fn first_at(id: i32, test: ActorTest, tree: &Tree, shape: &Shape) -> Option<i32>
    ensures { result ≡ first_id (is_sought test tree.now) (actor_at shape.now id) }
{
    match shape {
        Shape::Actor(protocol, nullable) => {
            if is_sought(test, tree, id, *protocol, *nullable) {
                Some(id)
            } else {
                None
            }
        }
        _ => None,
    }
}

// Returns the first actor found in a value of a type.
#[cycle(seek)]
fn first_in_value(
    value: &Value,
    test: ActorTest,
    schema: &Schema,
    tree: &Tree,
    shape: &Shape,
) -> Option<i32>
    ensures { result ≡ first_id (is_sought test tree.now) (actors_in schema.now shape.now value.now) }
{
    match value {
        Value::Struct(values) => match fields_of(schema, shape) {
            Some(fields) => first_actor(values, test, schema, tree, fields),
            None => None,
        },
        Value::Union(index, held) => match component_of(schema, shape, *index) {
            Some(component) => first_in_value(held, test, schema, tree, component),
            None => None,
        },
        Value::Array(values) => match element_of(shape) {
            Some(element) => first_in_all(values, test, schema, tree, element),
            None => None,
        },
        Value::Maybe(Some(held)) => match held_by(shape) {
            Some(inner) => first_in_value(held, test, schema, tree, inner),
            None => None,
        },
        Value::Actor(id) => first_at(*id, test, tree, shape),
        Value::Bool(_)
        | Value::Int(_)
        | Value::Text(_)
        | Value::Bytes(_)
        | Value::Bits(_)
        | Value::Maybe(None) => None,
    }
}

// Returns the first actor found in values of one type.
#[cycle(seek)]
fn first_in_all(
    values: &Values,
    test: ActorTest,
    schema: &Schema,
    tree: &Tree,
    shape: &Shape,
) -> Option<i32>
    ensures { result ≡ first_id (is_sought test tree.now) (actors_in_all schema.now shape.now values.now) }
{
    match values {
        Values::Nothing => None,
        Values::First(value, rest) => {
            let found = first_in_value(value, test, schema, tree, shape);
            match found {
                Some(_) => found,
                None => first_in_all(rest, test, schema, tree, shape),
            }
        }
    }
}

/// Returns the first actor that a search finds in values of the types of parameters, returns or
/// fields.
#[cycle(seek)]
pub fn first_actor(
    values: &Values,
    test: ActorTest,
    schema: &Schema,
    tree: &Tree,
    types: &[ParamRow],
) -> Option<i32>
    ensures { result ≡ first_id (is_sought test tree.now) (actors_in_parts schema.now types.now values.now) }
{
    match (values, types.split_first()) {
        (Values::First(value, rest), Some((first, more))) => {
            let found = first_in_value(value, test, schema, tree, &first.shape);
            match found {
                Some(_) => found,
                None => first_actor(rest, test, schema, tree, more),
            }
        }
        _ => None,
    }
}

/// Returns the first actor of a message that lives with another protocol: the one that the message
/// goes to, and then those of its values.
pub fn wrong_actor(schema: &Schema, tree: &Tree, row: &MessageRow, message: &Message) -> Option<i32>
    ensures { result ≡ first_id (is_sought ActorTest.Otherwise tree.now) (actors_of schema.now row.now message.now message.now.body) }
{
    if matches!(message.body, Body::Goodbye) {
        return None;
    }
    if lives_otherwise(tree, message.number / 65536, message.route) {
        return Some(message.route);
    }
    match &message.body {
        Body::Request(values) => {
            first_actor(
                values,
                ActorTest::Otherwise,
                schema,
                tree,
                row.params.as_slice(),
            )
        }
        Body::Reply(values) => {
            first_actor(
                values,
                ActorTest::Otherwise,
                schema,
                tree,
                returns_of_row(row),
            )
        }
        Body::Fault(_) | Body::Goodbye => None,
    }
}

// Whether an actor of this id and protocol lives, other than the one that is left out.
fn lives_beside(tree: &Tree, left_out: Option<i32>, protocol: u32, id: i32) -> bool
    ensures { result ≡ lives_as (living_beside left_out tree.now) protocol id }
{
    match left_out {
        None => lives_as(tree, protocol, id),
        Some(other) => id != other && lives_as(tree, protocol, id),
    }
}

// Replaces a dead actor of a nullable type by null.
fn null_actor(id: &mut i32, tree: &Tree, left_out: Option<i32>, shape: &Shape)
    ensures { id.new ≡ received_id (living_beside left_out tree.now) shape.now id.old }
{
    match shape {
        Shape::Actor(protocol, nullable) => {
            if *nullable && !lives_beside(tree, left_out, *protocol, *id) {
                *id = 0;
            }
        }
        _ => {}
    }
}

// Replaces the dead actors of nullable types in a value by null.
#[cycle(nulls)]
fn null_in_value(
    value: &mut Value,
    schema: &Schema,
    tree: &Tree,
    left_out: Option<i32>,
    shape: &Shape,
)
    ensures { value.new ≡ nulled_value schema.now (living_beside left_out tree.now) shape.now value.old }
{
    match value {
        Value::Struct(values) => {
            if let Some(fields) = fields_of(schema, shape) {
                null_in_fields(values, schema, tree, left_out, fields);
            }
        }
        Value::Union(index, held) => {
            if let Some(component) = component_of(schema, shape, *index) {
                null_in_value(held, schema, tree, left_out, component);
            }
        }
        Value::Array(values) => {
            if let Some(element) = element_of(shape) {
                null_in_all(values, schema, tree, left_out, element);
            }
        }
        Value::Maybe(Some(held)) => {
            if let Some(inner) = held_by(shape) {
                null_in_value(held, schema, tree, left_out, inner);
            }
        }
        Value::Actor(id) => null_actor(id, tree, left_out, shape),
        Value::Bool(_)
        | Value::Int(_)
        | Value::Text(_)
        | Value::Bytes(_)
        | Value::Bits(_)
        | Value::Maybe(None) => {}
    }
}

// Does the same in values of one type.
#[cycle(nulls)]
fn null_in_all(
    values: &mut Values,
    schema: &Schema,
    tree: &Tree,
    left_out: Option<i32>,
    shape: &Shape,
)
    ensures { values.new ≡ nulled_all schema.now (living_beside left_out tree.now) shape.now values.old }
{
    match values {
        Values::Nothing => {}
        Values::First(value, rest) => {
            null_in_value(value, schema, tree, left_out, shape);
            null_in_all(rest, schema, tree, left_out, shape);
        }
    }
}

// Does the same in values of the types of parameters, returns or fields.
#[cycle(nulls)]
fn null_in_fields(
    values: &mut Values,
    schema: &Schema,
    tree: &Tree,
    left_out: Option<i32>,
    types: &[ParamRow],
)
    ensures { values.new ≡ nulled schema.now (living_beside left_out tree.now) types.now values.old }
{
    match values {
        Values::Nothing => {}
        Values::First(value, rest) => {
            if let Some((first, more)) = types.split_first() {
                null_in_value(value, schema, tree, left_out, &first.shape);
                null_in_fields(rest, schema, tree, left_out, more);
            }
        }
    }
}

/// Replaces dead actors of nullable types by null, in values of the types of parameters, returns or
/// fields. Boxes stay where they are.
pub fn null_dead(values: &mut Values, schema: &Schema, tree: &Tree, types: &[ParamRow])
    ensures { values.new ≡ nulled schema.now tree.now types.now values.old }
{
    null_in_fields(values, schema, tree, None, types);
}

/// Does the same, but takes the actor of an id for a dead one: the one that the request of these
/// values has just built.
pub fn null_dead_beside(
    values: &mut Values,
    schema: &Schema,
    tree: &Tree,
    left_out: i32,
    types: &[ParamRow],
)
    ensures { values.new ≡ nulled schema.now (without left_out tree.now) types.now values.old }
{
    null_in_fields(values, schema, tree, Some(left_out), types);
}

//! Tests of values: their types, their sizes and their text.
use super::checks::{check, cut};
use super::value_rows::VALUE_ROWS;
use ipdl_base::{
    Body, Builtin, Compress, Direction, GOODBYE_NUMBER, Items, Kind, Level, Message, MessageRow,
    Name, ParamRow, ParamRows, Reason, Schema, Semantics, Shape, TypeRow, Value, Values,
};
use std::alloc::{AllocError, Global};
use std::test::Fail;
use value_types::{
    NEW, OLD, body_size, payload_size, push_value, push_values, value_fits, value_size, values_fit,
    values_size,
};

/// The bytes that pairs of hexadecimal digits spell.
fn bytes_of(alloc: Global, digits: &str) -> Result<Name, Fail> {
    let mut bytes = Vec::new(alloc);
    let mut high = None;
    for c in digits.chars() {
        let digit = u8::try_from(c.to_digit(16).unwrap_or(0)).unwrap_or(0);
        high = match high {
            None => Some(digit),
            Some(first) => {
                bytes.push((first & 15) << 4 | (digit & 15))?;
                None
            }
        };
    }
    Ok(Name::from_vec(alloc, bytes)?)
}

fn name(alloc: Global, text: &str) -> Result<Name, AllocError> {
    Name::from_slice(alloc, text.as_bytes())
}

/// The type of a word: 0 is a struct of the schema, 1 a union, and 2 none.
fn word_shape(alloc: Global, word: &str) -> Result<Shape, Fail> {
    if let Some(builtin) = Builtin::from_name(word.as_bytes()) {
        return Ok(Shape::Builtin(builtin));
    }
    match word {
        "Pair" => Ok(Shape::Named(0)),
        "Either" => Ok(Shape::Named(1)),
        "Absent" => Ok(Shape::Named(2)),
        "actor" => Ok(Shape::Actor(3, false)),
        "nullable" => Ok(Shape::Actor(3, true)),
        "endpoint" => Ok(Shape::Endpoint(0, false)),
        _ => Ok(Shape::Using(name(alloc, word)?)),
    }
}

/// What a word makes of the type before it.
fn made_shape(alloc: Global, shape: Shape, word: &str) -> Result<Shape, AllocError> {
    let held = Box::new(alloc, shape)?;
    match word {
        "[]" => Ok(Shape::Array(held)),
        "?" => Ok(Shape::Maybe(held)),
        _ => Ok(Shape::Unique(held)),
    }
}

/// The type that a text spells.
fn shape_of(alloc: Global, text: &str) -> Result<Shape, Fail> {
    match text.split_once(" ") {
        Some((word, made)) => Ok(made_shape(alloc, word_shape(alloc, word)?, made)?),
        None => word_shape(alloc, text),
    }
}

fn first(alloc: Global, value: Value, rest: Values) -> Result<Values, AllocError> {
    Ok(Values::First(Box::new(alloc, value)?, Box::new(alloc, rest)?))
}

/// The value of a word that no other follows.
fn word_value(alloc: Global, kind: &str, argument: &str) -> Result<Value, Fail> {
    match kind {
        "int" => Ok(Value::Int(argument.parse::<i128>()?)),
        "bits" => Ok(Value::Bits(argument.parse::<u64>()?)),
        "actor" => Ok(Value::Actor(argument.parse::<i32>()?)),
        "text" => Ok(Value::Text(bytes_of(alloc, argument)?)),
        "bytes" => Ok(Value::Bytes(bytes_of(alloc, argument)?)),
        "none" => Ok(Value::Maybe(None)),
        _ => Ok(Value::Bool(kind == "true")),
    }
}

/// The value that holds another one.
fn holds(argument: &str, held: Box<Value>) -> Result<Value, Fail> {
    match argument {
        "" => Ok(Value::Maybe(Some(held))),
        _ => Ok(Value::Union(argument.parse::<u32>()?, held)),
    }
}

/// What a word makes of the first of the values after it.
fn held_values(alloc: Global, argument: &str, values: Values) -> Result<Values, Fail> {
    match values {
        Values::First(held, rest) => {
            let value = Box::new(alloc, holds(argument, held)?)?;
            Ok(Values::First(value, rest))
        }
        Values::Nothing => Err("nothing to hold".into()),
    }
}

/// What a word makes of the values after it.
fn made_values(alloc: Global, word: &str, values: Values) -> Result<Values, Fail> {
    let (kind, argument) = cut(word, ":");
    match kind {
        "struct" => Ok(first(alloc, Value::Struct(values), Values::Nothing)?),
        "array" => Ok(first(alloc, Value::Array(values), Values::Nothing)?),
        "some" | "union" => held_values(alloc, argument, values),
        _ => Ok(first(alloc, word_value(alloc, kind, argument)?, values)?),
    }
}

/// The values that a text spells, from its last word on.
fn values_of(alloc: Global, text: &str) -> Result<Values, Fail> {
    let mut values = Values::Nothing;
    for word in text.rsplit(" ") {
        values = made_values(alloc, word, values)?;
    }
    Ok(values)
}

fn fields(alloc: Global, builtins: &[Builtin]) -> Result<ParamRows, AllocError> {
    let mut fields = Vec::new(alloc);
    for builtin in builtins {
        let name = name(alloc, "f")?;
        let shape = Shape::Builtin(*builtin);
        fields.push(ParamRow { name, shape })?;
    }
    Ok(Items::from_vec(fields))
}

/// A struct of a `uint8_t` and a `bool`.
fn pair_row(alloc: Global) -> Result<TypeRow, AllocError> {
    Ok(TypeRow::Struct(
        name(alloc, "Pair")?,
        fields(alloc, &[Builtin::Uint8, Builtin::Bool])?,
    ))
}

/// A union of `nsString` and the type 0.
fn either_row(alloc: Global) -> Result<TypeRow, AllocError> {
    let components = vec![in alloc; Shape::Builtin(Builtin::NsString), Shape::Named(0)]?;
    Ok(TypeRow::Union(name(alloc, "Either")?, Items::from_vec(components)))
}

/// The types 0, a struct, and 1, a union.
fn schema(alloc: Global) -> Result<Schema, AllocError> {
    let types = vec![in alloc; pair_row(alloc)?, either_row(alloc)?]?;
    Ok(Schema {
        protocols: Items::from_vec(Vec::new(alloc)),
        types: Items::from_vec(types),
    })
}

/// Whether the type has the value; and its sizes and its text, after the text so far.
fn shown(alloc: Global, schema: &Schema, shape: &Shape, value: &Value) -> Result<String, Fail> {
    if !value_fits(schema, shape, value) {
        return Ok(String::from_str(alloc, "misfit")?);
    }
    let old = value_size(schema, OLD, shape, value);
    let new = value_size(schema, NEW, shape, value);
    let mut out = format!(in alloc; "{old} {new} = ")?.into_bytes();
    push_value(schema, shape, value, &mut out)?;
    Ok(String::from_utf8(out)?)
}

/// What is shown of the type and the value of a row.
fn row_shown(alloc: Global, schema: &Schema, row: &str) -> Result<String, Fail> {
    let (shape, value) = cut(row, " | ");
    let shape = shape_of(alloc, shape)?;
    match values_of(alloc, value)? {
        Values::First(value, _) => shown(alloc, schema, &shape, &value),
        Values::Nothing => Err("a row without a value".into()),
    }
}

/// Values of every type, and values that a type does not have.
#[test]
fn values(rt: HostRuntime) -> Result<(), Fail> {
    let alloc = rt.alloc();
    let schema = schema(alloc)?;
    for row in VALUE_ROWS.split("\n") {
        let (given, wanted) = row.rsplit_once(" | ").unwrap_or((row, ""));
        let found = row_shown(alloc, &schema, given)?;
        check(&rt, row, found.as_str(), wanted);
    }
    Ok(())
}

/// A constructor with the parameters of the struct and a return.
fn constructor(alloc: Global) -> Result<MessageRow, AllocError> {
    Ok(MessageRow {
        number: 0,
        name: name(alloc, "PManaged")?,
        direction: Direction::Both,
        semantics: Semantics::Async,
        level: Level::Not,
        compress: Compress::Plain,
        kind: Kind::Constructor(1),
        params: fields(alloc, &[Builtin::Uint8, Builtin::Bool])?,
        returns: Some(fields(alloc, &[Builtin::Int64])?),
        carried: true,
        lazy: false,
    })
}

/// Whether the parameters have the values; and their sizes and their text, after the text so far.
fn params_shown(
    alloc: Global,
    schema: &Schema,
    params: &[ParamRow],
    values: &Values,
) -> Result<String, Fail> {
    if !values_fit(schema, params, values) {
        return Ok(String::from_str(alloc, "misfit")?);
    }
    let old = values_size(schema, OLD, params, values);
    let new = values_size(schema, NEW, params, values);
    let mut out = format!(in alloc; "{old} {new} = ")?.into_bytes();
    push_values(schema, params, values, &mut out)?;
    Ok(String::from_utf8(out)?)
}

/// What is shown of values under the parameters of the constructor.
fn given_shown(alloc: Global, values: &str) -> Result<String, Fail> {
    let schema = schema(alloc)?;
    let row = constructor(alloc)?;
    let values = values_of(alloc, values)?;
    params_shown(alloc, &schema, row.params.as_slice(), &values)
}

#[test]
fn parameters(rt: HostRuntime) -> Result<(), Fail> {
    for (values, wanted) in [("int:7 true", "2 8 = 7, true"), ("int:1 int:-2", "misfit")] {
        let found = given_shown(rt.alloc(), values)?;
        check(&rt, values, found.as_str(), wanted);
    }
    Ok(())
}

/// What a message of this kind carries.
fn body_of(alloc: Global, kind: &str, values: &str) -> Result<Body, Fail> {
    match kind {
        "request" => Ok(Body::Request(values_of(alloc, values)?)),
        "reply" => Ok(Body::Reply(values_of(alloc, values)?)),
        "fault" => Ok(Body::Fault(Reason::HandlerRejected)),
        _ => Ok(Body::Goodbye),
    }
}

/// The sizes of a body in the old and the new layout.
fn body_sizes(
    alloc: Global,
    schema: &Schema,
    row: Option<&MessageRow>,
    body: &Body,
) -> Result<String, Fail> {
    let old = body_size(schema, OLD, row, body);
    let new = body_size(schema, NEW, row, body);
    Ok(format!(in alloc; "{old} {new}")?)
}

/// The sizes of what a message of the constructor carries, or of a goodbye.
fn carried_sizes(alloc: Global, kind: &str, values: &str) -> Result<String, Fail> {
    let schema = schema(alloc)?;
    let body = body_of(alloc, kind, values)?;
    if kind == "goodbye" {
        return body_sizes(alloc, &schema, None, &body);
    }
    let row = constructor(alloc)?;
    body_sizes(alloc, &schema, Some(&row), &body)
}

#[test]
fn payloads(rt: HostRuntime) -> Result<(), Fail> {
    for (kind, values, wanted) in [
        ("request", "int:7 true", "6 12"),
        ("reply", "int:1", "8 8"),
        ("fault", "", "1 4"),
        ("goodbye", "", "0 0"),
    ] {
        let found = carried_sizes(rt.alloc(), kind, values)?;
        check(&rt, kind, found.as_str(), wanted);
    }
    Ok(())
}

/// The size of a goodbye's payload under a schema of nothing.
fn goodbye_size(alloc: Global) -> usize {
    let schema = Schema {
        protocols: Items::from_vec(Vec::new(alloc)),
        types: Items::from_vec(Vec::new(alloc)),
    };
    let message = Message {
        route: 0,
        number: GOODBYE_NUMBER,
        seq: 0,
        transaction: 0,
        made: 0,
        body: Body::Goodbye,
    };
    payload_size(&schema, NEW, &message)
}

#[test]
fn goodbye(rt: HostRuntime) {
    assert!(rt; goodbye_size(rt.alloc()) == 0);
}

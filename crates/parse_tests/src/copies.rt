//! Tests of copies of messages and types.

use super::checks::check;
use ipdl_base::{Body, Message, Name, Shape, Value, Values};
use std::alloc::{AllocError, Global};
use std::test::Fail;

fn name_of(alloc: Global, text: &[u8]) -> Result<Name, AllocError> {
    Name::from_slice(alloc, text)
}

fn before(alloc: Global, first: Value, rest: Values) -> Result<Values, AllocError> {
    Ok(Values::First(Box::new(alloc, first)?, Box::new(alloc, rest)?))
}

fn one(alloc: Global, value: Value) -> Result<Values, AllocError> {
    before(alloc, value, Values::Nothing)
}

/// Returns a value of this kind. A union has this component.
fn value_of(alloc: Global, kind: u32, component: u32) -> Result<Value, AllocError> {
    match kind {
        0 => Ok(Value::Actor(4)),
        1 => Ok(Value::Maybe(None)),
        2 => Ok(Value::Maybe(Some(Box::new(alloc, Value::Bool(true))?))),
        3 => Ok(Value::Array(one(alloc, Value::Int(-5))?)),
        4 => {
            let text = Value::Text(name_of(alloc, b"text")?);
            Ok(Value::Union(component, Box::new(alloc, text)?))
        }
        5 => Ok(Value::Struct(one(alloc, Value::Bits(7))?)),
        _ => Ok(Value::Bytes(name_of(alloc, b"bytes")?)),
    }
}

/// Returns one value of each kind. The union has this component.
fn each_kind(alloc: Global, component: u32) -> Result<Values, AllocError> {
    let mut values = Values::Nothing;
    for kind in 0..7 {
        values = before(alloc, value_of(alloc, kind, component)?, values)?;
    }
    Ok(values)
}

fn message_of(alloc: Global, component: u32) -> Result<Message, AllocError> {
    Ok(Message {
        route: 2,
        number: 4,
        seq: -1,
        transaction: 0,
        made: 0,
        body: Body::Request(each_kind(alloc, component)?),
    })
}

fn name_text(name: &Name) -> Result<&str, Fail> {
    Ok(str::from_utf8(name.as_slice())?)
}

/// Appends a space and a value: its kind and its content.
#[cycle(show)]
fn show_value(value: &Value, out: &mut String) -> Result<(), Fail> {
    match value {
        Value::Bool(holds) => Ok(write!(out, " bool {holds}")?),
        Value::Int(number) => Ok(write!(out, " int {number}")?),
        Value::Text(text) => Ok(write!(out, " text {}", name_text(text)?)?),
        Value::Bytes(bytes) => Ok(write!(out, " bytes {}", name_text(bytes)?)?),
        Value::Bits(bits) => Ok(write!(out, " bits {bits}")?),
        Value::Struct(fields) => {
            write!(out, " struct")?;
            show_values(fields, out)
        }
        Value::Union(index, held) => {
            write!(out, " union {index}")?;
            show_value(held, out)
        }
        Value::Array(elements) => {
            write!(out, " array")?;
            show_values(elements, out)
        }
        Value::Maybe(None) => Ok(write!(out, " none")?),
        Value::Maybe(Some(held)) => {
            write!(out, " some")?;
            show_value(held, out)
        }
        Value::Actor(id) => Ok(write!(out, " actor {id}")?),
    }
}

/// Appends values one after another, and a full stop after the last.
#[cycle(show)]
fn show_values(values: &Values, out: &mut String) -> Result<(), Fail> {
    match values {
        Values::Nothing => Ok(write!(out, ".")?),
        Values::First(first, rest) => {
            show_value(first, out)?;
            show_values(rest, out)
        }
    }
}

/// Returns the numbers of a message and its values as text.
fn message_text(alloc: Global, message: &Message) -> Result<String, Fail> {
    let Message {
        route,
        number,
        seq,
        transaction,
        made,
        body,
    } = message;
    let mut out = format!(in alloc; "{route} {number} {seq} {transaction} {made} request")?;
    match body {
        Body::Request(values) => show_values(values, &mut out)?,
        _ => return Err("no request".into()),
    }
    Ok(out)
}

/// Returns a copy of a message as text, and whether it is the same.
fn copied_message(alloc: Global, message: &Message) -> Result<String, Fail> {
    let copy = message.copy(alloc)?;
    let is_same = copy.same(message);
    let text = message_text(alloc, &copy)?;
    Ok(format!(in alloc; "{is_same} {text}")?)
}

/// Returns a copy of an array of foreign values as text, and whether it is the same type.
fn copied_shape(alloc: Global, shape: &Shape) -> Result<String, Fail> {
    let copy = shape.copy(alloc)?;
    let is_same = copy.same(shape);
    match &copy {
        Shape::Array(element) => match element.as_ref() {
            Shape::Using(name) => Ok(format!(in alloc; "{is_same} array of {}", name_text(name)?)?),
            _ => Err("another element".into()),
        },
        _ => Err("another type".into()),
    }
}

/// Tests that a copy is the same message, and that one with another component of a union is not.
#[test]
fn messages(rt: HostRuntime) -> Result<(), Fail> {
    let alloc = rt.alloc();
    let message = message_of(alloc, 0)?;
    let found = copied_message(alloc, &message)?;
    let wanted =
        "true 2 4 -1 0 0 request bytes bytes struct bits 7. union 0 text text array int -5. \
                  some bool true none actor 4.";
    check(&rt, "a message", found.as_str(), wanted);
    let other = message_of(alloc, 1)?;
    assert!(rt; !other.same(&message));
    Ok(())
}

/// Tests that a copy is the same type, and that another type is not.
#[test]
fn shapes(rt: HostRuntime) -> Result<(), Fail> {
    let alloc = rt.alloc();
    let shape = Shape::Array(Box::new(alloc, Shape::Using(name_of(alloc, b"A::B")?))?);
    let found = copied_shape(alloc, &shape)?;
    check(&rt, "a type", found.as_str(), "true array of A::B");
    assert!(rt; !Shape::Named(0).same(&shape));
    Ok(())
}

//! Tests of the greatest payload.
ghost use Rattle.std.specs.Prelude.{◌≡◌, true, Some, [], IfOk};
ghost use Rattle.ipdl_base.specs.Sound.{IsSound, message_of};
ghost use Rattle.value_types.specs.Fits.{Fits, actor_ids, all_actor_ids};

use super::checks::check;
use super::schemas::the_schema;
use super::shown::digits_of;
use ipdl_base::{Body, Kind, Message, MessageRow, Name, Schema, Semantics, Value, Values};
use std::alloc::{AllocError, Global};
use std::test::Fail;
use value_codec::{DecodeResult, EncodeFault, decode, encode, frame_size};
use value_types::values_fit;

/// The number of a request with a text, bytes, and bytes of two other types.
const TEXTS: u32 = 65548;

/// Returns whether a value is a text or bytes.
fn is_text(value: &Value) -> bool
    ensures { result ≡ true → actor_ids value.now ≡ [] }
{
    match value {
        Value::Text(_) | Value::Bytes(_) => true,
        _ => false,
    }
}

/// Returns whether all values are texts or bytes.
fn are_texts(values: &Values) -> bool
    ensures { result ≡ true → all_actor_ids values.now ≡ [] }
{
    match values {
        Values::Nothing => true,
        Values::First(value, rest) => is_text(value) && are_texts(rest),
    }
}

/// Returns a request with these values, for an actor and with a number that any message may have.
fn request(schema: &Schema, row: &MessageRow, number: u32, values: Values) -> Result<Message, Fail>
    requires { message_of schema.now number ≡ Some row.now }
    ensures { IfOk result (Fits schema.now) }
{
    if !row.carried || row.number != number || row.semantics != Semantics::Async {
        return Err("no carried async message".into());
    }
    if row.kind != Kind::Normal {
        return Err("a message that makes an actor or lets one fall".into());
    }
    if !values_fit(schema, row.params.as_slice(), &values) || !are_texts(&values) {
        return Err("other values".into());
    }
    Ok(Message {
        route: 1,
        number,
        seq: 1,
        transaction: 0,
        made: 0,
        body: Body::Request(values),
    })
}

fn before(alloc: Global, first: Value, rest: Values) -> Result<Values, AllocError> {
    Ok(Values::First(Box::new(alloc, first)?, Box::new(alloc, rest)?))
}

/// Returns an empty text, `count` bytes, and twice no bytes.
fn values_of(alloc: Global, count: usize) -> Result<Values, AllocError> {
    let mut bytes = Vec::with_capacity(alloc, count)?;
    for _ in 0..count {
        bytes.push(0)?;
    }
    let none = Value::Bytes(Name::empty());
    let mut values = before(alloc, none, Values::Nothing)?;
    let none = Value::Bytes(Name::empty());
    values = before(alloc, none, values)?;
    values = before(alloc, Value::Bytes(Name::from_vec(alloc, bytes)?), values)?;
    let text = Value::Text(Name::empty());
    before(alloc, text, values)
}

/// Returns a message with `count` bytes in one of its values.
fn values_message(alloc: Global, schema: &Schema, count: usize) -> Result<Message, Fail>
    requires { IsSound schema.now }
    ensures { IfOk result (Fits schema.now) }
{
    let values = values_of(alloc, count)?;
    match schema.message(TEXTS) {
        Some(row) => request(schema, row, TEXTS, values),
        None => Err("no such message".into()),
    }
}

/// Decodes the frame that bytes begin with: whether it is that of the message, and its size.
fn read_text(
    alloc: Global,
    schema: &Schema,
    message: &Message,
    bytes: &[u8],
) -> Result<String, Fail>
    requires { IsSound schema.now }
{
    match decode(alloc, schema, bytes) {
        DecodeResult::Frame(read, size) => {
            let is_same = read.same(message);
            Ok(format!(in alloc; "same {is_same} size {size}")?)
        }
        _ => Err("no frame".into()),
    }
}

/// Returns what happens when a message with `count` bytes is written after two other bytes: the size of its
/// frame, whether it is accepted, and what is there then.
fn shown(alloc: Global, schema: &Schema, message: &Message) -> Result<String, Fail>
    requires sound { IsSound schema.now }
    requires fits { Fits schema.now message.now }
{
    let size = frame_size(schema, message);
    let mut out = vec![in alloc; 1, 2]?;
    match encode(alloc, schema, message, &mut out) {
        Ok(()) => {
            let read = read_text(alloc, schema, message, &out[2..])?;
            Ok(format!(in alloc; "{size} taken {} {read}", out.len())?)
        }
        Err(EncodeFault::TooLarge(payload)) => {
            let left = digits_of(alloc, out.as_slice())?;
            Ok(format!(in alloc; "{size} too large {payload} {left}")?)
        }
        Err(EncodeFault::NoMemory) => Err("no memory".into()),
    }
}

/// The greatest payload is encoded and read again. A larger one is refused by its size, and the bytes before
/// it are unchanged.
#[test]
fn limits(rt: HostRuntime) -> Result<(), Fail> {
    let alloc = rt.alloc();
    let schema = the_schema(alloc)?;
    for (count, wanted) in [
        (4080, "4124 taken 4126 same true size 4124"),
        (4081, "4128 too large 4100 0102"),
        (70000, "70044 too large 70016 0102"),
    ] {
        let message = values_message(alloc, &schema, count)?;
        let found = shown(alloc, &schema, &message)?;
        check(&rt, wanted, found.as_str(), wanted);
    }
    Ok(())
}

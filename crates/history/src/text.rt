//! The text of a history, as transcripts print it.
ghost use Rattle.std.specs.Prelude.{◌≡◌, ◌++◌, ◌/◌, [], IfOk, OnOk, codes};
ghost use Rattle.std.specs.Fmt.{decimal};
ghost use Rattle.std.specs.Option.{option_map_or};
ghost use Rattle.ipdl_base.specs.Sound.{IsSound, message_of};
ghost use Rattle.history.specs.Noted.{Knows, noted_at};
ghost use Rattle.history.specs.Text as text;

use crate::history::History;
use crate::messages::Messages;
use crate::words::{destroy_word, reason_word, refusal_word, side_word};
use ipdl_base::{
    Line, ParamRow, Schema, SendRefusal, Side, Values, What, is_effect, params_of, returns_of,
    short_name,
};
use std::alloc::{AllocError, Global};
use value_types::{push_decimal, push_values};

/// Returns the short name of a protocol, or nothing if there is no protocol of this number.
fn protocol_name(schema: &Schema, number: u32) -> &[u8]
    requires { IsSound schema.now }
    ensures { result.now ≡ text.protocol_text schema.now number }
{
    match schema.protocol(number) {
        Some(protocol) => short_name(protocol.name.as_slice()),
        None => b"",
    }
}

/// Returns the name of a message by the number of its request, or nothing if there is none.
fn message_name(schema: &Schema, number: u32) -> &[u8]
    requires { IsSound schema.now }
    ensures { result.now ≡ option_map_or (λ message. message.name) (message_of schema.now number) [] }
{
    match schema.message(number) {
        Some(message) => message.name.as_slice(),
        None => b"",
    }
}

/// Returns the returns of the message that is given, or an empty list if no message is given.
fn returns_named(schema: &Schema, named: Option<u32>) -> &[ParamRow]
    requires { IsSound schema.now }
    ensures { result.now ≡ text.returns_named schema.now named }
{
    match named {
        Some(number) => returns_of(schema, number),
        None => &[],
    }
}

/// Appends a text and then a number in decimal digits.
pub fn push_numbered(out: &mut Vec<u8>, before: &[u8], number: i32) -> Result<(), AllocError>
    ensures { OnOk result (out.new.items ≡ out.old.items ++ text.numbered before.now number) }
{
    out.extend_from_slice(before)?;
    push_decimal(out, number)
}

/// Appends a message with its protocol, as `P.M`, by the number of its request or reply
/// (docs/transcripts.md).
pub fn push_message(out: &mut Vec<u8>, schema: &Schema, number: u32) -> Result<(), AllocError>
    requires { IsSound schema.now }
    ensures { OnOk result (out.new.items ≡ out.old.items ++ text.message_text schema.now number) }
{
    out.extend_from_slice(protocol_name(schema, number / 65536))?;
    out.extend_from_slice(b".")?;
    out.extend_from_slice(message_name(schema, number))
}

/// Appends values in parentheses, by their types (docs/values.md).
pub fn push_listed(
    out: &mut Vec<u8>,
    schema: &Schema,
    types: &[ParamRow],
    values: &Values,
) -> Result<(), AllocError>
    ensures { OnOk result (out.new.items ≡ out.old.items ++ text.listed_values schema.now types.now values.now) }
{
    out.extend_from_slice(b"(")?;
    push_values(schema, types, values, out)?;
    out.extend_from_slice(b")")
}

/// Appends a blank and a message with its values.
fn push_request(
    out: &mut Vec<u8>,
    schema: &Schema,
    number: u32,
    values: &Values,
) -> Result<(), AllocError>
    requires { IsSound schema.now }
    ensures { OnOk result (out.new.items ≡ out.old.items ++ (codes " " ++ text.request_text schema.now number values.now)) }
{
    out.extend_from_slice(b" ")?;
    push_message(out, schema, number)?;
    push_listed(out, schema, params_of(schema, number), values)
}

/// Appends a word and a number, and another word and number.
fn push_routed(
    out: &mut Vec<u8>,
    word: &[u8],
    number: i32,
    between: &[u8],
    route: i32,
) -> Result<(), AllocError>
    ensures { OnOk result (out.new.items ≡ out.old.items ++ (text.numbered word.now number ++ text.numbered between.now route)) }
{
    push_numbered(out, word, number)?;
    push_numbered(out, between, route)
}

/// Appends a word, a number, and two more texts.
fn push_tailed(
    out: &mut Vec<u8>,
    word: &[u8],
    number: i32,
    between: &[u8],
    tail: &[u8],
) -> Result<(), AllocError>
    ensures { OnOk result (out.new.items ≡ out.old.items ++ (text.numbered word.now number ++ between.now ++ tail.now)) }
{
    push_numbered(out, word, number)?;
    out.extend_from_slice(between)?;
    out.extend_from_slice(tail)
}

/// Appends a word, a number, a text, and values of returns.
fn push_returned(
    out: &mut Vec<u8>,
    schema: &Schema,
    types: &[ParamRow],
    word: &[u8],
    number: i32,
    between: &[u8],
    values: &Values,
) -> Result<(), AllocError>
    ensures { OnOk result (out.new.items ≡ out.old.items
        ++ (text.numbered word.now number ++ between.now ++ text.listed_values schema.now types.now values.now)) }
{
    push_numbered(out, word, number)?;
    out.extend_from_slice(between)?;
    push_listed(out, schema, types, values)
}

/// Appends a refusal.
fn push_refused(out: &mut Vec<u8>, cause: SendRefusal, act: &[u8]) -> Result<(), AllocError>
    ensures { OnOk result (out.new.items ≡ out.old.items ++ text.refused_text cause act.now) }
{
    out.extend_from_slice(b"refused ")?;
    out.extend_from_slice(refusal_word(cause))?;
    out.extend_from_slice(act)
}

/// Appends the refusal of a send.
fn push_refused_send(
    out: &mut Vec<u8>,
    schema: &Schema,
    cause: SendRefusal,
    message: u32,
) -> Result<(), AllocError>
    requires { IsSound schema.now }
    ensures { OnOk result (out.new.items ≡ out.old.items ++ text.refused_send_text schema.now cause message) }
{
    push_refused(out, cause, b" ")?;
    push_message(out, schema, message)
}

/// Appends an async send.
fn push_send(
    out: &mut Vec<u8>,
    schema: &Schema,
    number: i32,
    route: i32,
    message: u32,
    values: &Values,
) -> Result<(), AllocError>
    requires { IsSound schema.now }
    ensures { OnOk result (out.new.items ≡ out.old.items ++ text.send_text schema.now number route message values.now) }
{
    push_routed(out, b"send ", number, b" to ", route)?;
    push_request(out, schema, message, values)
}

/// Appends a sync send.
fn push_call(
    out: &mut Vec<u8>,
    schema: &Schema,
    number: i32,
    transaction: i32,
    route: i32,
    message: u32,
    values: &Values,
) -> Result<(), AllocError>
    requires { IsSound schema.now }
    ensures { OnOk result (out.new.items ≡ out.old.items ++ text.call_text schema.now number transaction route message values.now) }
{
    push_routed(out, b"call ", number, b"/", transaction)?;
    push_numbered(out, b" to ", route)?;
    push_request(out, schema, message, values)
}

/// Appends the line of a request that is handled.
fn push_take(
    out: &mut Vec<u8>,
    schema: &Schema,
    number: i32,
    route: i32,
    message: u32,
    values: &Values,
) -> Result<(), AllocError>
    requires { IsSound schema.now }
    ensures { OnOk result (out.new.items ≡ out.old.items ++ text.take_text schema.now number route message values.now) }
{
    push_routed(out, b"take ", number, b" at ", route)?;
    push_request(out, schema, message, values)
}

/// Appends a blank and a message with its protocol.
fn push_blank_message(out: &mut Vec<u8>, schema: &Schema, number: u32) -> Result<(), AllocError>
    requires { IsSound schema.now }
    ensures { OnOk result (out.new.items ≡ out.old.items ++ (codes " " ++ text.message_text schema.now number)) }
{
    out.extend_from_slice(b" ")?;
    push_message(out, schema, number)
}

/// Appends the line of a request that is dropped.
fn push_drop(
    out: &mut Vec<u8>,
    schema: &Schema,
    number: i32,
    route: i32,
    message: u32,
    id: i32,
) -> Result<(), AllocError>
    requires { IsSound schema.now }
    ensures { OnOk result (out.new.items ≡ out.old.items ++ text.drop_text schema.now number route message id) }
{
    push_routed(out, b"drop ", number, b" at ", route)?;
    push_blank_message(out, schema, message)?;
    push_numbered(out, b" for ", id)
}

/// Appends the line that gives a name to an actor.
fn push_let(out: &mut Vec<u8>, name: &[u8], id: i32) -> Result<(), AllocError>
    ensures { OnOk result (out.new.items ≡ out.old.items ++ (codes "let " ++ name.now ++ text.numbered (codes " ") id)) }
{
    out.extend_from_slice(b"let ")?;
    out.extend_from_slice(name)?;
    push_numbered(out, b" ", id)
}

/// Appends the number of packets that leave the outbox.
fn push_flush(out: &mut Vec<u8>, count: u32) -> Result<(), AllocError>
    ensures { OnOk result (out.new.items ≡ out.old.items ++ (codes "flush " ++ decimal count)) }
{
    out.extend_from_slice(b"flush ")?;
    push_decimal(out, count)
}

/// Returns the returns of the message of a number at an end.
fn returns_at<'s>(
    schema: &'s Schema,
    messages: &Messages,
    side: Side,
    number: i32,
) -> &'s [ParamRow]
    requires { IsSound schema.now }
    ensures { result.now ≡ text.returns_named schema.now (noted_at messages.now side number) }
{
    returns_named(schema, messages.find(side, number))
}

/// Appends the content of a line, after its beginning.
fn push_what(
    out: &mut Vec<u8>,
    schema: &Schema,
    messages: &Messages,
    side: Side,
    what: &What,
) -> Result<(), AllocError>
    requires { IsSound schema.now }
    ensures { OnOk result (out.new.items ≡ out.old.items ++ text.what_text schema.now
        (λ n. text.returns_named schema.now (noted_at messages.now side n)) what.now) }
{
    match what {
        What::Send(n, route, message, values) => {
            push_send(out, schema, *n, *route, *message, values)
        }
        What::Call(n, transaction, route, message, values) => {
            push_call(out, schema, *n, *transaction, *route, *message, values)
        }
        What::RefusedSend(cause, message) => push_refused_send(out, schema, *cause, *message),
        What::RefusedClose(cause) => push_refused(out, *cause, b" close"),
        What::RefusedResolve(cause) => push_refused(out, *cause, b" resolve"),
        What::RefusedReject(cause) => push_refused(out, *cause, b" reject"),
        What::Resolve(n, values) => {
            let types = returns_at(schema, messages, side, *n);
            push_returned(out, schema, types, b"resolve ", *n, b" ", values)
        }
        What::Reject(n) => push_numbered(out, b"reject ", *n),
        What::Keep(n, name) => push_tailed(out, b"keep ", *n, b" ", name.as_slice()),
        What::Let(name, id) => push_let(out, name.as_slice(), *id),
        What::Close => out.extend_from_slice(b"close"),
        What::Die => out.extend_from_slice(b"die"),
        What::DeliverRequest(n) => push_numbered(out, b"deliver request ", *n),
        What::DeliverReply(n) => push_numbered(out, b"deliver reply ", *n),
        What::DeliverGoodbye => out.extend_from_slice(b"deliver goodbye"),
        What::DeliverBroken => out.extend_from_slice(b"deliver broken"),
        What::Take(n, route, message, values) => {
            push_take(out, schema, *n, *route, *message, values)
        }
        What::Drop(n, route, message, id) => { push_drop(out, schema, *n, *route, *message, *id) }
        What::TakeReply(n) => push_numbered(out, b"take reply ", *n),
        What::ShutNormal => out.extend_from_slice(b"shut NormalShutdown"),
        What::ShutAbnormal => out.extend_from_slice(b"shut AbnormalShutdown"),
        What::Return(n) => push_numbered(out, b"return ", *n),
        What::ResumeOk(n, values) => {
            let types = returns_at(schema, messages, side, *n);
            push_returned(out, schema, types, b"resume ", *n, b" ok ", values)
        }
        What::ResumeFault(n, reason) => {
            push_tailed(out, b"resume ", *n, b" fault ", reason_word(*reason))
        }
        What::Flush(count) => push_flush(out, *count),
        What::Built(id, protocol) => {
            let name = protocol_name(schema, *protocol);
            push_tailed(out, b"built ", *id, b" ", name)
        }
        What::Replaced(n) => push_numbered(out, b"replaced ", *n),
        What::AnswerOk(n, values) => {
            let types = returns_at(schema, messages, side, *n);
            push_returned(out, schema, types, b"answer ", *n, b" ok ", values)
        }
        What::AnswerFault(n, reason) => {
            push_tailed(out, b"answer ", *n, b" fault ", reason_word(*reason))
        }
        What::Fails(n) => push_numbered(out, b"fails ", *n),
        What::Resolved(n, values) => {
            let types = returns_at(schema, messages, side, *n);
            push_returned(out, schema, types, b"settle ", *n, b" resolved ", values)
        }
        What::Rejected(n, reason) => {
            push_tailed(out, b"settle ", *n, b" rejected ", reason_word(*reason))
        }
        What::Fall(id, destroy) => { push_tailed(out, b"fall ", *id, b" ", destroy_word(*destroy)) }
    }
}

/// Appends the beginning of a line.
fn push_begin(out: &mut Vec<u8>, line: &Line) -> Result<(), AllocError>
    ensures { OnOk result (out.new.items ≡ out.old.items ++ text.line_begin line.now) }
{
    if is_effect(&line.what) {
        out.extend_from_slice(b"  ")
    } else {
        out.extend_from_slice(side_word(line.side))?;
        out.extend_from_slice(b" ")
    }
}

/// Appends a line.
pub(crate) fn push_line(
    out: &mut Vec<u8>,
    schema: &Schema,
    messages: &Messages,
    line: &Line,
) -> Result<(), AllocError>
    requires { IsSound schema.now }
    ensures { OnOk result (out.new.items ≡ out.old.items ++ text.line_saying schema.now
        (λ n. text.returns_named schema.now (noted_at messages.now line.now.side n)) line.now) }
{
    push_begin(out, line)?;
    push_what(out, schema, messages, line.side, &line.what)?;
    out.extend_from_slice(b"\n")
}

/// Appends lines, starting with empty `messages`.
fn push_lines(
    out: &mut Vec<u8>,
    schema: &Schema,
    messages: &mut Messages,
    lines: &[Line],
) -> Result<(), AllocError>
    requires sound { IsSound schema.now }
    requires new { Knows [] messages.old }
    ensures { OnOk result (out.new.items ≡ out.old.items ++ text.transcript_text schema.now lines.now) }
{
    for line in lines {
        push_line(out, schema, messages, line)?;
        messages.note(line)?;
    }
    Ok(())
}

/// Returns the text that a transcript prints of a history, a line for each of its lines
/// (docs/transcripts.md). The time is in proportion to the length of the text. Fails only if memory runs out.
pub fn history_text(
    alloc: Global,
    schema: &Schema,
    history: &History,
) -> Result<Vec<u8>, AllocError>
    requires { IsSound schema.now }
    ensures { IfOk result (λ written. written.items ≡ text.transcript_text schema.now history.now.lines) }
{
    let mut messages = Messages::new(alloc);
    let mut out = Vec::new(alloc);
    push_lines(&mut out, schema, &mut messages, history.lines())?;
    Ok(out)
}

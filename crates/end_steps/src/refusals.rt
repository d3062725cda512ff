//! Why an end does not send a request or an answer.
ghost use Rattle.std.specs.Prelude.{◌≡◌, pos, min, option_map};
ghost use Rattle.ipdl_base.specs.Sound.{IsSound};
ghost use Rattle.channel_model.specs.Sends.{is_too_large, value_refusal};
ghost use Rattle.channel_model.specs.ValueActors.{has_dead};
ghost use Rattle.value_types.specs.Sizes.{greatest_size, request_size};
ghost use Rattle.end_steps.specs.Refusals.{answer_refusal_by, reply_refusal_by, request_without_numbers, send_refusal_by};
ghost use Rattle.end_parts.specs.StackDetails.{frames_in};

use actor_tree::Tree;
use end_parts::{ActorTest, StackEntries, first_actor, lives_as};
use ipdl_base::{
    Body, Kind, Message, MessageRow, ParamRow, Schema, Semantics, SendRefusal, Values,
    returns_of_row,
};
use nesting_core::SendHead;
use value_types::{NEW, payload_size, values_size};

// Returns why values are not sent, where `is_too_large` is whether the payload of their message is.
fn value_refusal(
    is_too_large: bool,
    schema: &Schema,
    tree: &Tree,
    types: &[ParamRow],
    values: &Values,
) -> Option<SendRefusal>
    ensures { result ≡ value_refusal is_too_large (has_dead schema.now tree.now types.now values.now) }
{
    if is_too_large {
        Some(SendRefusal::TooLarge)
    } else if first_actor(values, ActorTest::Dead, schema, tree, types).is_some() {
        Some(SendRefusal::DeadValue)
    } else {
        None
    }
}

/// Returns why values are not sent in a message, be it a request or a reply. Takes no memory.
pub fn values_refusal(
    schema: &Schema,
    tree: &Tree,
    types: &[ParamRow],
    message: &Message,
    values: &Values,
) -> Option<SendRefusal>
    requires { IsSound schema.now }
    ensures { result ≡ value_refusal (is_too_large schema.now message.now) (has_dead schema.now tree.now types.now values.now) }
{
    let is_too_large = payload_size(schema, NEW, message) > NEW.most_payload;
    value_refusal(is_too_large, schema, tree, types, values)
}

// Returns the bytes of the payload of a request of a row, or the greatest `usize` if there are
// more.
fn request_size(schema: &Schema, row: &MessageRow, values: &Values) -> usize
    ensures { result ≡ min (request_size NEW schema.now values.now row.now) greatest_size }
{
    let size = values_size(schema, NEW, row.params.as_slice(), values);
    match row.kind {
        Kind::Constructor(_) => size.saturating_add(4),
        Kind::Normal | Kind::Delete => size,
    }
}

// Whether the payload of a request of a message is too large.
fn is_request_too_large(schema: &Schema, number: u32, values: &Values) -> bool
    requires { IsSound schema.now }
    ensures { result ≡ is_too_large schema.now (request_without_numbers number (pos 0) values.now) }
{
    match schema.message(number) {
        Some(row) => request_size(schema, row, values) > NEW.most_payload,
        None => false,
    }
}

/// Returns why a request with these values is not sent to an actor: the first cause that holds.
/// Takes no memory and copies no value.
pub fn send_refusal(
    is_open: bool,
    schema: &Schema,
    tree: &Tree,
    stack: &StackEntries,
    row: &MessageRow,
    route: i32,
    values: &Values,
) -> Option<SendRefusal>
    requires { IsSound schema.now }
    ensures { result ≡ send_refusal_by is_open schema.now tree.now (frames_in stack.now) row.now
        (request_without_numbers row.now.number route values.now) values.now }
{
    if !is_open {
        return Some(SendRefusal::Closed);
    }
    if !lives_as(tree, row.number / 65536, route) {
        return Some(SendRefusal::DeadActor);
    }
    let head = SendHead {
        sync: row.semantics == Semantics::Sync,
        level: row.level,
    };
    let refusal = stack.refusal(&head);
    if refusal.is_some() {
        return refusal;
    }
    value_refusal(
        is_request_too_large(schema, row.number, values),
        schema,
        tree,
        row.params.as_slice(),
        values,
    )
}

/// Returns why an answer is not sent: the first cause that holds. `reply` is the reply that would
/// be sent, or `None` if there is no resolver. Takes no memory.
pub fn answer_refusal(
    is_open: bool,
    schema: &Schema,
    tree: &Tree,
    row: &MessageRow,
    reply: Option<&Message>,
) -> Option<SendRefusal>
    requires { IsSound schema.now }
    ensures { result ≡ answer_refusal_by is_open schema.now tree.now row.now (option_map (λ m. m.now) reply.entry) }
{
    if !is_open {
        return Some(SendRefusal::Closed);
    }
    match reply {
        None => Some(SendRefusal::DeadActor),
        Some(reply) => reply_refusal(schema, tree, row, reply),
    }
}

// Returns why a reply is not sent, which its values alone decide.
fn reply_refusal(
    schema: &Schema,
    tree: &Tree,
    row: &MessageRow,
    reply: &Message,
) -> Option<SendRefusal>
    requires { IsSound schema.now }
    ensures { result ≡ reply_refusal_by schema.now tree.now row.now reply.now reply.now.body }
{
    match &reply.body {
        Body::Reply(values) => values_refusal(schema, tree, returns_of_row(row), reply, values),
        Body::Request(_) | Body::Fault(_) | Body::Goodbye => None,
    }
}

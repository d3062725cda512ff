//! Why an end refuses the delivery of a message, whatever end has sent it.
ghost use Rattle.std.specs.Prelude.{◌≡◌, ◌+◌, ◌<◌, [], option_map};
ghost use Rattle.std.specs.Ordering.{int_eq};
ghost use Rattle.ipdl_base.specs.Plain.{plain_body, plain_message};
ghost use Rattle.channel_model.specs.Numbers.{id_of, seq_of};
ghost use Rattle.channel_model.specs.Refusals.{body_refusal, request_refusal};
ghost use Rattle.end_steps.specs.DeliveryRefusals.{actor_refusal_by, is_expected_in, receiving_end, refusal_of, reply_refusal_by};

use crate::sent_request::{id_of, is_constructor, seq_of};
use actor_tree::Tree;
use end_parts::{PromiseEntries, StackEntries, wrong_actor};
use ipdl_base::{Body, Message, MessageRow, Schema, Semantics, Side};

/// Why an end refuses the delivery of a message.
#[derive(Clone, Copy)]
pub enum DeliveryRefusal {
    /// A request of a message that the other side does not send.
    WrongDirection,
    /// A request whose number is not the next one of the other side.
    WrongNumber,
    /// A constructor whose new id is not the next one of the other side.
    WrongNewId,
    /// The reply to a request of this number, for which nothing waits.
    Stray(i32),
    /// An actor of this id lives, but with another protocol than the message of this number states.
    WrongActor(i32, u32),
}

/// The side of an end, with the numbers of requests and of constructors that it has received.
#[derive(Clone, Copy)]
pub struct Receiver {
    pub side: Side,
    pub delivered: u32,
    pub constructors_delivered: u32,
}

/// The greatest number of constructors of a side, by their ids.
const MOST_CONSTRUCTORS: u32 = 536870911;

// Whether this is the number of a side's next request, after `requests` of them.
fn is_next_seq(side: Side, requests: u32, seq: i32) -> bool
    requires { requests < 268435456 }
    ensures { result ≡ int_eq seq (seq_of side (requests + 1)) }
{
    seq == seq_of(side, requests + 1)
}

// Whether this is the id of the next actor that a side constructs, after `constructors` of them.
fn is_next_id(side: Side, constructors: u32, id: i32) -> bool
    ensures { result ≡ int_eq id (id_of side (constructors + 1)) }
{
    constructors < MOST_CONSTRUCTORS && id == id_of(side, constructors + 1)
}

/// Returns why a message of a row is refused: the first cause that holds. Takes no memory.
pub fn delivery_refusal(
    receiver: Receiver,
    schema: &Schema,
    tree: &Tree,
    stack: &StackEntries,
    promises: &PromiseEntries,
    row: &MessageRow,
    message: &Message,
) -> Option<DeliveryRefusal>
    requires { receiver.delivered < 268435456 }
    ensures { option_map refusal_of result
        ≡ body_refusal schema.now (receiving_end receiver tree.now stack.now promises.now)
        (plain_message message.now) (plain_body message.now.body) row.now }
{
    match &message.body {
        Body::Request(_) => request_refusal(receiver, schema, tree, row, message),
        Body::Reply(_) | Body::Fault(_) => {
            reply_refusal(schema, tree, stack, promises, row, message)
        }
        Body::Goodbye => None,
    }
}

// Returns why a request is refused.
fn request_refusal(
    receiver: Receiver,
    schema: &Schema,
    tree: &Tree,
    row: &MessageRow,
    message: &Message,
) -> Option<DeliveryRefusal>
    requires { receiver.delivered < 268435456 }
    ensures { option_map refusal_of result ≡ request_refusal schema.now (receiving_end receiver tree.now [] []) message.now row.now }
{
    let sender = receiver.side.other();
    if !sender.sends(row.direction) {
        Some(DeliveryRefusal::WrongDirection)
    } else if !is_next_seq(sender, receiver.delivered, message.seq) {
        Some(DeliveryRefusal::WrongNumber)
    } else if is_constructor(row.kind)
        && !is_next_id(sender, receiver.constructors_delivered, message.made)
    {
        Some(DeliveryRefusal::WrongNewId)
    } else {
        actor_refusal(schema, tree, row, message)
    }
}

// Whether anything waits for a reply.
fn is_expected_reply(
    stack: &StackEntries,
    promises: &PromiseEntries,
    row: &MessageRow,
    reply: &Message,
) -> bool
    ensures { result ≡ is_expected_in stack.now promises.now reply.now row.now }
{
    if row.semantics == Semantics::Sync {
        stack.is_waited_for(reply)
    } else {
        promises.is_promised(reply)
    }
}

// Returns why a reply is refused.
fn reply_refusal(
    schema: &Schema,
    tree: &Tree,
    stack: &StackEntries,
    promises: &PromiseEntries,
    row: &MessageRow,
    message: &Message,
) -> Option<DeliveryRefusal>
    ensures { option_map refusal_of result
        ≡ reply_refusal_by schema.now tree.now
        (is_expected_in stack.now promises.now message.now row.now) message.now row.now }
{
    if is_expected_reply(stack, promises, row, message) {
        actor_refusal(schema, tree, row, message)
    } else {
        Some(DeliveryRefusal::Stray(message.seq))
    }
}

// Returns why a message is refused because of its actors.
fn actor_refusal(
    schema: &Schema,
    tree: &Tree,
    row: &MessageRow,
    message: &Message,
) -> Option<DeliveryRefusal>
    ensures { option_map refusal_of result ≡ actor_refusal_by schema.now tree.now row.now message.now }
{
    match wrong_actor(schema, tree, row, message) {
        None => None,
        Some(id) => Some(DeliveryRefusal::WrongActor(id, message.number)),
    }
}

//! What an answer repeats of its request, the reply that it makes, and its line.
ghost use Rattle.std.specs.Prelude.{◌≡◌, ◌<◌, option_map, IfOk};
ghost use Rattle.ipdl_base.specs.Plain.{plain_body, plain_message, plain_values};
ghost use Rattle.channel_model.specs.Answers.{answer_body, refused_line};
ghost use Rattle.channel_model.specs.Outputs.{reply_to};
ghost use Rattle.channel_model.specs.Refusals.{is_replied_to};
ghost use Rattle.end_parts.specs.PlainLines.{plain_what};
ghost use Rattle.end_parts.specs.Replies.{answered_of, line_of_reply};

use ipdl_base::{Body, Message, Reason, SendRefusal, Values, What};
use std::alloc::{AllocError, Global};

/// What the answer to a request repeats of the request.
#[derive(Clone, Copy, Debug, PartialEq, Eq)]
pub struct AnsweredRequest {
    pub seq: i32,
    pub route: i32,
    pub number: u32,
    pub transaction: i32,
}

/// Returns the reply to a request.
pub fn reply_to(request: &AnsweredRequest, body: Body) -> Message
    requires { request.now.number < 4294967295 }
    ensures { plain_message result ≡ reply_to (answered_of request.now) (plain_body body) }
{
    Message {
        route: request.route,
        number: request.number + 1,
        seq: request.seq,
        transaction: request.transaction,
        made: 0,
        body,
    }
}

/// Returns the reply by a resolver: values, or the fault HandlerRejected if there are none. Fails
/// only if memory runs out.
pub fn resolver_reply(
    alloc: Global,
    request: &AnsweredRequest,
    values: Option<&Values>,
) -> Result<Message, AllocError>
    requires { request.now.number < 4294967295 }
    ensures { IfOk result (λ m. plain_message m ≡ reply_to (answered_of request.now) (answer_body (option_map (λ vs. plain_values vs.now) values.entry))) }
{
    let body = resolver_body(alloc, values)?;
    Ok(reply_to(request, body))
}

// Returns the body of a reply by a resolver.
fn resolver_body(alloc: Global, values: Option<&Values>) -> Result<Body, AllocError>
    ensures { IfOk result (λ body. plain_body body ≡ answer_body (option_map (λ vs. plain_values vs.now) values.entry)) }
{
    match values {
        None => Ok(Body::Fault(Reason::HandlerRejected)),
        Some(values) => Ok(Body::Reply(values.copy(alloc)?)),
    }
}

/// Returns the line of an answer by a resolver, with the values of its reply.
pub fn reply_line(reply: Message) -> What
    ensures { plain_what result ≡ line_of_reply (plain_message reply) }
{
    let seq = reply.seq;
    match reply.body {
        Body::Reply(values) => What::Resolve(seq, values),
        Body::Fault(_) | Body::Request(_) | Body::Goodbye => What::Reject(seq),
    }
}

/// Returns the line of a refused answer by a resolver.
pub fn refused_line(cause: SendRefusal, values: Option<&Values>) -> What
    ensures { result ≡ refused_line cause (option_map (λ vs. plain_values vs.now) values.entry) }
{
    match values {
        None => What::RefusedReject(cause),
        Some(_) => What::RefusedResolve(cause),
    }
}

/// What a reply shows of its request: its number, the actor that it went to, and the number of its
/// message.
#[derive(Clone, Copy)]
pub struct RequestKey {
    pub seq: i32,
    pub route: i32,
    pub number: u32,
}

/// Whether a reply is one to the request.
pub fn is_replied_to(reply: &Message, request: &RequestKey) -> bool
    ensures { result ≡ is_replied_to reply.now request.now.seq request.now.number request.now.route }
{
    reply.seq == request.seq
        && reply.number > request.number
        && reply.number - 1 == request.number
        && reply.route == request.route
}

//! Reads the payload of a frame.

ghost use Rattle.std.specs.Prelude.{◌≡◌, unwrap_or, []};
ghost use Rattle.ipdl_base.specs.Plain.{plain_body};
ghost use Rattle.value_codec.specs.Frames as frames;
ghost use Rattle.value_codec.specs.Frames.{seen};
ghost use Rattle.value_codec.specs.Reading.{Gives, value_at};

use crate::fault::Refusal;
use crate::header::{FrameType, reply_flags};
use crate::parts::padding;
use crate::reading::{broken, id, short, zeros};
use crate::values::values;
use ipdl_base::{Body, Kind, MessageRow, ParamRow, Reason, Rule, Schema, Semantics};
use std::alloc::Global;
use value_types::Layout;

/// Returns the id of a new actor and the body, if no bytes are left.
#[tactic(auto, unfolding(crate::specs::Frames::ended))]
fn ended(made: i32, body: Body, bytes: &[u8]) -> Result<(i32, Body), Refusal>
    ensures { Gives (λ x. (x.0, plain_body x.1)) result (frames.ended made (plain_body body) bytes.now) }
{
    match bytes {
        [] => Ok((made, body)),
        [_, ..] => Err(broken(Rule::LONG_PAYLOAD, bytes)),
    }
}

/// Takes the id of the actor that a constructor makes. For any other message it is 0, and no byte is taken.
#[tactic(auto, unfolding(crate::specs::Frames::made_at))]
fn made(kind: Kind, bytes: &[u8]) -> Result<(i32, &[u8]), Refusal>
    ensures { Gives (λ x. (x.0, x.1.now)) result (frames.made_at kind bytes.now) }
{
    match kind {
        Kind::Constructor(_) => id(false, bytes),
        Kind::Normal | Kind::Delete => Ok((0, bytes)),
    }
}

/// Returns the reason that a resolver was destroyed, which only a reply to an async message may give.
fn resolver_reason(semantics: Semantics) -> Option<Reason>
    ensures { result ≡ frames.resolver_reason semantics }
{
    match semantics {
        Semantics::Async => Some(Reason::ResolverDestroyed),
        Semantics::Sync => None,
    }
}

/// Returns the reason with this byte, or `None`.
fn reason_of(semantics: Semantics, byte: u8) -> Option<Reason>
    ensures { result ≡ frames.reason_of semantics byte }
{
    if byte == 3 {
        Some(Reason::HandlerRejected)
    } else if byte == 4 {
        Some(Reason::ActorDestroyed)
    } else if byte == 5 {
        resolver_reason(semantics)
    } else {
        None
    }
}

/// Takes the reason of a fault.
#[tactic(auto, unfolding(crate::specs::Frames::reason_at, crate::specs::Frames::reason_in))]
fn reason(layout: Layout, semantics: Semantics, bytes: &[u8]) -> Result<(Reason, &[u8]), Refusal>
    ensures { Gives (λ x. (x.0, x.1.now)) result (frames.reason_at layout semantics bytes.now) }
{
    match bytes {
        [] => Err(short()),
        [first, rest @ ..] => match reason_of(semantics, *first) {
            None => Err(broken(Rule::BAD_VALUE, bytes)),
            Some(reason) => {
                let rest = zeros(padding(layout, 1), rest)?;
                Ok((reason, rest))
            }
        },
    }
}

/// Reads the payload of a request.
#[tactic(auto, unfolding(crate::specs::Frames::request_at))]
fn request(
    alloc: Global,
    layout: Layout,
    schema: &Schema,
    row: &MessageRow,
    depth: usize,
    bytes: &[u8],
) -> Result<(i32, Body), Refusal>
    ensures { Gives (λ x. (x.0, plain_body x.1)) result (frames.request_at (value_at depth layout schema.now) row.now bytes.now) }
{
    let (made, rest) = made(row.kind, bytes)?;
    let (found, rest) = values(alloc, layout, schema, row.params.as_slice(), depth, rest)?;
    ended(made, Body::Request(found), rest)
}

/// Returns the returns of a message, or an empty list if it has no returns.
fn returns_of(row: &MessageRow) -> &[ParamRow]
    ensures { result.now ≡ unwrap_or row.now.returns [] }
{
    match &row.returns {
        Some(returns) => returns.as_slice(),
        None => &[],
    }
}

/// Reads the payload of a reply with values.
#[tactic(auto, unfolding(crate::specs::Frames::returns_at))]
fn reply(
    alloc: Global,
    layout: Layout,
    schema: &Schema,
    row: &MessageRow,
    depth: usize,
    bytes: &[u8],
) -> Result<(i32, Body), Refusal>
    ensures { Gives (λ x. (x.0, plain_body x.1)) result (frames.returns_at (value_at depth layout schema.now) row.now bytes.now) }
{
    let (found, rest) = values(alloc, layout, schema, returns_of(row), depth, bytes)?;
    ended(0, Body::Reply(found), rest)
}

/// Reads the payload of a reply with a fault.
#[tactic(auto, unfolding(crate::specs::Frames::fault_at))]
fn fault(layout: Layout, row: &MessageRow, bytes: &[u8]) -> Result<(i32, Body), Refusal>
    ensures { Gives (λ x. (x.0, plain_body x.1)) result (frames.fault_at layout row.now bytes.now) }
{
    let (reason, rest) = reason(layout, row.semantics, bytes)?;
    ended(0, Body::Fault(reason), rest)
}

/// Reads the payload of a frame with these flags: the id of a new actor, and the body.
pub(crate) fn contents(
    alloc: Global,
    layout: Layout,
    schema: &Schema,
    frame_type: &FrameType,
    flags: u32,
    bytes: &[u8],
) -> Result<(i32, Body), Refusal>
    ensures { Gives (λ x. (x.0, plain_body x.1)) result (frames.contents_at layout schema.now (seen frame_type.now) flags bytes.now) }
{
    match frame_type {
        FrameType::Goodbye => ended(0, Body::Goodbye, bytes),
        FrameType::Request(row) => request(alloc, layout, schema, row, bytes.len() + 1, bytes),
        FrameType::Reply(row) => {
            if flags == reply_flags(row) {
                reply(alloc, layout, schema, row, bytes.len() + 1, bytes)
            } else {
                fault(layout, row, bytes)
            }
        }
    }
}

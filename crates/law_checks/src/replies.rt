//! Tests of the contents of replies.
ghost use Rattle.std.specs.Prelude.{◌≡◌};
ghost use Rattle.std.specs.List.{list_any};
ghost use Rattle.law_checks.specs.Asking.{is_asked};
ghost use Rattle.history_reading.specs.EndReadings.{end_view};
ghost use Rattle.history_reading.specs.Views.{reply_view, sent_view, packet_view};
ghost use Rattle.history_reading.specs.Settled as settled;
ghost use Rattle.history_reading.specs.SentPacket.{is_said, says};
ghost use Rattle.history_reading.specs.Waits as waits;
ghost use Rattle.history_reading.specs.Waits.{own_returns};
ghost use Rattle.ipdl_base.specs.Sound.{IsSound};

use history_reading::{EndReading, ReplyContent, SentPacket, is_nulled, missing};
use ipdl_base::{ParamRow, Reason, Schema, Values, returns_of};

/// Whether both are the same reason.
fn same_reason(a: Reason, b: Reason) -> bool
    ensures { result ≡ waits.same_reason a b }
{
    matches!(
        (a, b),
        (Reason::ChannelClosed, Reason::ChannelClosed)
            | (Reason::HandlerRejected, Reason::HandlerRejected)
            | (Reason::ActorDestroyed, Reason::ActorDestroyed)
            | (Reason::ResolverDestroyed, Reason::ResolverDestroyed)
    )
}

/// Whether a reply is a fault of this reason.
fn is_fault(said: &ReplyContent<'_>, reason: Reason) -> bool
    ensures { result ≡ waits.is_fault reason (reply_view said.now) }
{
    match said {
        ReplyContent::Fault(other) => same_reason(*other, reason),
        _ => false,
    }
}

/// Whether a reply is a handler's rejection.
fn is_rejected(said: &ReplyContent<'_>) -> bool
    ensures { result ≡ settled.is_rejected (reply_view said.now) }
{
    matches!(said, ReplyContent::Rejected)
}

/// Whether a reply answers a call with these values, in which dead actors are null.
fn is_ok_with(
    said: &ReplyContent<'_>,
    schema: &Schema,
    own: &EndReading<'_>,
    types: &[ParamRow],
    values: &Values,
) -> bool
    ensures { result ≡ waits.is_ok_with schema.now (end_view own.now) types.now values.now (reply_view said.now) }
{
    match said {
        ReplyContent::Ok(sent) => is_nulled(schema, own, types, sent, values),
        _ => false,
    }
}

/// Whether a reply answers a call with values in which an actor is missing.
fn is_ok_missing(
    said: &ReplyContent<'_>,
    schema: &Schema,
    own: &EndReading<'_>,
    types: &[ParamRow],
) -> bool
    ensures { result ≡ waits.is_ok_missing schema.now (end_view own.now) types.now (reply_view said.now) }
{
    match said {
        ReplyContent::Ok(sent) => missing(schema, own, types, sent).is_some(),
        _ => false,
    }
}

/// Whether a reply resolves with these values, in which dead actors are null.
fn is_resolved_with(
    said: &ReplyContent<'_>,
    schema: &Schema,
    own: &EndReading<'_>,
    types: &[ParamRow],
    values: &Values,
) -> bool
    ensures { result ≡ settled.is_resolved_with schema.now (end_view own.now) types.now values.now (reply_view said.now) }
{
    match said {
        ReplyContent::Resolved(sent) => is_nulled(schema, own, types, sent, values),
        _ => false,
    }
}

/// Whether a reply resolves with values in which an actor is missing.
fn is_resolved_missing(
    said: &ReplyContent<'_>,
    schema: &Schema,
    own: &EndReading<'_>,
    types: &[ParamRow],
) -> bool
    ensures { result ≡ settled.is_resolved_missing schema.now (end_view own.now) types.now (reply_view said.now) }
{
    match said {
        ReplyContent::Resolved(sent) => missing(schema, own, types, sent).is_some(),
        _ => false,
    }
}

/// Returns the return types of an end's request of a number.
pub fn own_returns<'s>(schema: &'s Schema, own: &EndReading<'_>, n: i32) -> &'s [ParamRow]
    requires { IsSound schema.now }
    ensures { result.now ≡ own_returns schema.now (end_view own.now) n }
{
    match own.sent.request(n) {
        Some(request) => returns_of(schema, request.number),
        None => &[],
    }
}

/// What a test requires of a reply to the request of a number.
#[derive(Clone, Copy)]
pub enum ReplyTest<'a> {
    Fault(Reason),
    Rejected,
    OkWith(&'a [ParamRow], &'a Values),
    OkMissing(&'a [ParamRow]),
    ResolvedWith(&'a [ParamRow], &'a Values),
    ResolvedMissing(&'a [ParamRow]),
}

/// Whether a reply passes a test.
fn answers(
    said: &ReplyContent<'_>,
    schema: &Schema,
    own: &EndReading<'_>,
    asked: &ReplyTest<'_>,
) -> bool
    ensures { result ≡ is_asked schema.now (end_view own.now) asked.now (reply_view said.now) }
{
    match asked {
        ReplyTest::Fault(reason) => is_fault(said, *reason),
        ReplyTest::Rejected => is_rejected(said),
        ReplyTest::OkWith(types, values) => is_ok_with(said, schema, own, types, values),
        ReplyTest::OkMissing(types) => is_ok_missing(said, schema, own, types),
        ReplyTest::ResolvedWith(types, values) => is_resolved_with(
            said, schema, own, types, values,
        ),
        ReplyTest::ResolvedMissing(types) => is_resolved_missing(said, schema, own, types),
    }
}

/// Whether a packet is a reply to the request of a number, and passes a test.
fn is_said(
    told: &SentPacket<'_>,
    schema: &Schema,
    own: &EndReading<'_>,
    n: i32,
    asked: &ReplyTest<'_>,
) -> bool
    ensures { result ≡ is_said (is_asked schema.now (end_view own.now) asked.now) n (packet_view told.now) }
{
    match told {
        SentPacket::Reply(m, said) => *m == n && answers(said, schema, own, asked),
        _ => false,
    }
}

/// Whether some packet is such a reply.
fn some_is_said(
    sent: &[SentPacket<'_>],
    schema: &Schema,
    own: &EndReading<'_>,
    n: i32,
    asked: &ReplyTest<'_>,
) -> bool
    ensures { result ≡ list_any (λ t. is_said (is_asked schema.now (end_view own.now) asked.now) n (packet_view t)) sent.now }
{
    sent.iter().any(|told| is_said(told, schema, own, n, asked))
}

/// Whether some reply of an end to the request of a number passes a test, where `own` is what is
/// read of the end that receives it.
pub fn says(
    schema: &Schema,
    own: &EndReading<'_>,
    other: &EndReading<'_>,
    n: i32,
    asked: &ReplyTest<'_>,
) -> bool
    ensures { result ≡ says (is_asked schema.now (end_view own.now) asked.now) (end_view other.now).sent n }
{
    some_is_said(other.sent.as_slice(), schema, own, n, asked)
}

//! The law Settled: promises are settled once, each for a cause.
ghost use Rattle.std.specs.Prelude.{◌≡◌, find, not};
ghost use Rattle.std.specs.List.{list_all};
ghost use Rattle.ipdl_base.specs.Sound.{IsSound};
ghost use Rattle.history_reading.specs.EndReading.{is_promise, is_settled_packet};
ghost use Rattle.history_reading.specs.EndReadings.{end_view};
ghost use Rattle.history_reading.specs.Views.{sent_view, packet_view};
ghost use Rattle.history_reading.specs.Settled as the;

use crate::replies::{ReplyTest, own_returns, says};
use history_reading::{EndReading, EventKind, NumberList, SentPacket};
use ipdl_base::{Line, Reason, Schema, Side, Values, What};
use reading_checks::same_side;

/// Whether the end's request of a number is async with returns.
fn is_promise(own: &EndReading<'_>, n: i32) -> bool
    ensures { result ≡ is_promise (end_view own.now) n }
{
    match own.sent.request(n) {
        Some(request) => request.wants,
        None => false,
    }
}

/// Whether a promise has not been settled.
fn is_unsettled(own: &EndReading<'_>, n: i32) -> bool
    ensures { result ≡ the.is_unsettled (end_view own.now) n }
{
    is_promise(own, n) && !own.settled.has(n)
}

/// Whether an event is a closing.
fn is_close_event(event: EventKind) -> bool
    ensures { result ≡ the.is_close_event event }
{
    matches!(event, EventKind::Closes)
}

/// Whether a line settles a promise.
fn is_settle(what: &What) -> bool
    ensures { result ≡ the.is_settle what.now }
{
    matches!(what, What::Resolved(..) | What::Rejected(..))
}

/// Whether a line is the fall of an actor.
fn is_fall_of(what: &What, id: i32) -> bool
    ensures { result ≡ the.is_fall_of id what.now }
{
    match what {
        What::Fall(fallen, _) => *fallen == id,
        _ => false,
    }
}

/// Whether a line is the fall of an actor at an end.
fn is_fall_at(line: &Line, side: Side, id: i32) -> bool
    ensures { result ≡ the.is_fall_at side id line.now }
{
    same_side(line.side, side) && is_fall_of(&line.what, id)
}

/// Whether the first line that settles nothing is the fall of this actor at this end.
fn falls_next(following: &[Line], side: Side, id: i32) -> bool
    ensures { result ≡ the.falls_next side id following.now }
{
    for line in following {
        if !is_settle(&line.what) {
            return is_fall_at(line, side, id);
        }
    }
    false
}

/// Whether the actor of a promise falls next.
#[tactic(auto, unfolding(history_reading::specs::Settled::promise_falls_next))]
fn promise_falls_next(following: &[Line], side: Side, own: &EndReading<'_>, n: i32) -> bool
    ensures { result ≡ the.promise_falls_next side (end_view own.now) n following.now }
{
    match own.sent.request(n) {
        Some(request) => falls_next(following, side, request.route),
        None => false,
    }
}

/// Whether the other end reports that an actor was destroyed.
#[tactic(auto, unfolding(history_reading::specs::Settled::reports_fallen))]
fn reports_fallen(schema: &Schema, own: &EndReading<'_>, other: &EndReading<'_>, n: i32) -> bool
    ensures { result ≡ the.reports_fallen (end_view other.now) n }
{
    let asked = ReplyTest::Fault(Reason::ActorDestroyed);
    says(schema, own, other, n, &asked)
}

/// Whether the other end resolves a promise with values in which an actor is missing.
#[tactic(auto, unfolding(history_reading::specs::Settled::resolves_missing))]
fn resolves_missing(schema: &Schema, own: &EndReading<'_>, other: &EndReading<'_>, n: i32) -> bool
    requires { IsSound schema.now }
    ensures { result ≡ the.resolves_missing schema.now (end_view own.now) (end_view other.now) n }
{
    let asked = ReplyTest::ResolvedMissing(own_returns(schema, own, n));
    says(schema, own, other, n, &asked)
}

/// Whether the other end does one or the other.
fn reports_destroyed(schema: &Schema, own: &EndReading<'_>, other: &EndReading<'_>, n: i32) -> bool
    requires { IsSound schema.now }
    ensures { result ≡ the.reports_destroyed schema.now (end_view own.now) (end_view other.now) n }
{
    reports_fallen(schema, own, other, n) || resolves_missing(schema, own, other, n)
}

/// Whether a promise may be rejected because an actor was destroyed.
#[tactic(auto, unfolding(history_reading::specs::Settled::is_destroyed))]
fn is_destroyed(
    schema: &Schema,
    side: Side,
    own: &EndReading<'_>,
    other: &EndReading<'_>,
    n: i32,
    following: &[Line],
) -> bool
    requires { IsSound schema.now }
    ensures { result ≡ the.is_destroyed schema.now side (end_view own.now) (end_view other.now) n following.now }
{
    reports_destroyed(schema, own, other, n) || promise_falls_next(following, side, own, n)
}

/// Whether a rejection has its cause.
fn is_cause(
    schema: &Schema,
    side: Side,
    own: &EndReading<'_>,
    other: &EndReading<'_>,
    n: i32,
    following: &[Line],
    reason: Reason,
) -> bool
    requires { IsSound schema.now }
    ensures { result ≡ the.is_cause schema.now side (end_view own.now) (end_view other.now) n following.now reason }
{
    match reason {
        Reason::HandlerRejected => says(schema, own, other, n, &ReplyTest::Rejected),
        Reason::ResolverDestroyed => says(
            schema,
            own,
            other,
            n,
            &ReplyTest::Fault(Reason::ResolverDestroyed),
        ),
        Reason::ChannelClosed => is_close_event(own.event),
        Reason::ActorDestroyed => is_destroyed(schema, side, own, other, n, following),
    }
}

/// Whether the other end resolved a promise with these values.
fn is_resolved(
    schema: &Schema,
    own: &EndReading<'_>,
    other: &EndReading<'_>,
    n: i32,
    values: &Values,
) -> bool
    requires { IsSound schema.now }
    ensures { result ≡ the.is_resolved schema.now (end_view own.now) (end_view other.now) n values.now }
{
    let asked = ReplyTest::ResolvedWith(own_returns(schema, own, n), values);
    says(schema, own, other, n, &asked)
}

/// Whether a line obeys the law, before the lines after it.
pub fn settled_line(
    schema: &Schema,
    side: Side,
    own: &EndReading<'_>,
    other: &EndReading<'_>,
    what: &What,
    following: &[Line],
) -> bool
    requires { IsSound schema.now }
    ensures { result ≡ the.settled_line schema.now side (end_view own.now) (end_view other.now) what.now following.now }
{
    match what {
        What::Resolved(n, values) => {
            is_unsettled(own, *n) && is_resolved(schema, own, other, *n, values)
        }
        What::Rejected(n, reason) => {
            is_unsettled(own, *n) && is_cause(schema, side, own, other, *n, following, *reason)
        }
        _ => true,
    }
}

/// Whether a packet is settled if it is a request which is async with returns.
fn is_settled_packet(settled: &NumberList, told: &SentPacket<'_>) -> bool
    ensures { result ≡ is_settled_packet settled.now (packet_view told.now) }
{
    match told {
        SentPacket::Request(request) => !request.wants || settled.has(request.seq),
        _ => true,
    }
}

/// Whether each packet is settled if it is such a request.
fn are_settled(settled: &NumberList, sent: &[SentPacket<'_>]) -> bool
    ensures { result ≡ list_all (λ t. is_settled_packet settled.now (packet_view t)) sent.now }
{
    sent.iter().all(|told| is_settled_packet(settled, told))
}

/// Whether each promise of an end is settled.
fn all_settled(own: &EndReading<'_>) -> bool
    ensures { result ≡ the.all_settled (end_view own.now).settled (end_view own.now).sent }
{
    are_settled(&own.settled, own.sent.as_slice())
}

/// Whether an end that has closed has settled each of its promises.
pub fn settled_moment(own: &EndReading<'_>) -> bool
    ensures { result ≡ the.settled_moment (end_view own.now) }
{
    !own.over || all_settled(own)
}

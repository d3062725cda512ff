//! Whether a line answers as is owed.
ghost use Rattle.std.specs.Prelude.{◌≡◌, find, option_map, reverse};
ghost use Rattle.std.specs.List.{list_any};
ghost use Rattle.ipdl_base.specs.Sound.{IsSound};
ghost use Rattle.history_reading.specs.EndReadings.{end_view};
ghost use Rattle.history_reading.specs.Numbers.{has_packet};
ghost use Rattle.order_checks.specs.AnswerTests as the;
ghost use Rattle.order_checks.specs.EffectTests.{effects_next, whats};

use crate::answered::number_answered;
use crate::effect_lines::{effects_next, is_fault_due, same_reason};
use crate::effects::{is_open, same_side};
use crate::rows::owes_reply;
use history_reading::{EndReading, NumberList, PacketKind};
use ipdl_base::{Line, Reason, Schema, Side, What, is_effect};

/// Whether packets have this one.
fn has_packet(packets: &[PacketKind], one: PacketKind) -> bool
    ensures { result ≡ has_packet packets.now one }
{
    packets.iter().any(|packet| packet.same(&one))
}

/// Whether a line is the delivery of the request of a number.
fn is_delivery_of(what: &What, n: i32) -> bool
    ensures { result ≡ the.is_delivery_of n what.now }
{
    match what {
        What::DeliverRequest(m) => *m == n,
        _ => false,
    }
}

/// Whether a line is an event of an end.
fn is_event_at(line: &Line, side: Side) -> bool
    ensures { result ≡ the.is_event_at side line.now }
{
    same_side(line.side, side) && !is_effect(&line.what)
}

/// The line of the last event of an end.
fn last_event(before: &[Line], side: Side) -> Option<&Line>
    ensures { option_map (λ line. line.now) result ≡ find (the.is_event_at side) (reverse before.now) }
{
    before.iter().rev().find(|line| is_event_at(line, side))
}

/// Whether that is the delivery of the request of a number.
fn has_just_come(before: &[Line], side: Side, n: i32) -> bool
    ensures { result ≡ the.has_just_come side n before.now }
{
    match last_event(before, side) {
        Some(line) => is_delivery_of(&line.what, n),
        None => false,
    }
}

/// Whether the other end's request of a number owes a reply.
fn is_owed(schema: &Schema, other: &EndReading<'_>, n: i32) -> bool
    requires { IsSound schema.now }
    ensures { result ≡ the.is_owed schema.now (end_view other.now) n }
{
    match other.sent.request(n) {
        Some(request) => owes_reply(schema, request.number),
        None => false,
    }
}

/// Whether a request was delivered in an earlier event, and was not answered before.
fn is_unanswered_request(
    side: Side,
    own: &EndReading<'_>,
    answered: &NumberList,
    before: &[Line],
    n: i32,
) -> bool
    ensures { result ≡ the.is_unanswered_request side (end_view own.now) answered.now before.now n }
{
    has_packet(own.delivered.as_slice(), PacketKind::Request(n))
        && !has_just_come(before, side, n)
        && !answered.has(n)
}

/// Whether a request may be answered.
fn may_answer(
    schema: &Schema,
    side: Side,
    own: &EndReading<'_>,
    other: &EndReading<'_>,
    answered: &NumberList,
    before: &[Line],
    n: i32,
) -> bool
    requires { IsSound schema.now }
    ensures { result ≡ the.may_answer schema.now side (end_view own.now) (end_view other.now) answered.now before.now n }
{
    is_open(own.state)
        && is_owed(schema, other, n)
        && is_unanswered_request(side, own, answered, before, n)
}

/// Whether a request that a line answers may be.
fn is_answered_right(
    schema: &Schema,
    side: Side,
    own: &EndReading<'_>,
    other: &EndReading<'_>,
    answered: &NumberList,
    before: &[Line],
    what: &What,
) -> bool
    requires { IsSound schema.now }
    ensures { result ≡ the.is_answered_right schema.now side (end_view own.now) (end_view other.now) answered.now before.now what.now }
{
    match number_answered(what) {
        Some(n) => may_answer(schema, side, own, other, answered, before, n),
        None => true,
    }
}

/// Whether a request that is replaced is answered where it makes a promise.
fn is_replaced_right(other: &EndReading<'_>, n: i32, effects: &[Line]) -> bool
    ensures { result ≡ the.is_replaced_right (end_view other.now) n (whats effects.now) }
{
    match other.sent.request(n) {
        Some(request) => is_fault_due(effects, request.wants, n, Reason::ResolverDestroyed),
        None => false,
    }
}

/// Whether a line rejects the promise of a number since an actor fell.
fn is_rejection_of(what: &What, n: i32) -> bool
    ensures { result ≡ the.is_rejection_of n what.now }
{
    match what {
        What::Rejected(m, why) => *m == n && same_reason(*why, Reason::ActorDestroyed),
        _ => false,
    }
}

/// Whether a line of an end does.
fn is_rejection_at(line: &Line, side: Side, n: i32) -> bool
    ensures { result ≡ the.is_rejection_at side n line.now }
{
    same_side(line.side, side) && is_rejection_of(&line.what, n)
}

/// Whether some line of an end does.
fn was_rejected(before: &[Line], side: Side, n: i32) -> bool
    ensures { result ≡ list_any (the.is_rejection_at side n) before.now }
{
    before.iter().any(|line| is_rejection_at(line, side, n))
}

/// Whether a reply that is taken is of a promise that may have been settled before.
fn is_late_right(own: &EndReading<'_>, before: &[Line], side: Side, n: i32) -> bool
    ensures { result ≡ the.is_late_right side (end_view own.now) before.now n }
{
    !own.settled.has(n) || was_rejected(before, side, n)
}

/// Whether a line answers as is owed, after the lines before it and before those after it.
pub fn answers_line(
    schema: &Schema,
    side: Side,
    own: &EndReading<'_>,
    other: &EndReading<'_>,
    answered: &NumberList,
    before: &[Line],
    what: &What,
    following: &[Line],
) -> bool
    requires { IsSound schema.now }
    ensures { result ≡ the.answers_line schema.now side (end_view own.now) (end_view other.now) answered.now before.now what.now following.now }
{
    match what {
        What::Replaced(n) => is_replaced_right(other, *n, effects_next(following)),
        What::TakeReply(n) => is_late_right(own, before, side, *n),
        _ => is_answered_right(schema, side, own, other, answered, before, what),
    }
}

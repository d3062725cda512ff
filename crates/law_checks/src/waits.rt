//! The law Waits: calls are answered, and no end waits in vain.
ghost use Rattle.std.specs.Prelude.{◌≡◌};
ghost use Rattle.ipdl_base.specs.Sound.{IsSound};
ghost use Rattle.history_reading.specs.EndReadings.{end_view};
ghost use Rattle.history_reading.specs.Readings.{reading_view};
ghost use Rattle.history_reading.specs.Waits as the;

use crate::replies::{ReplyTest, own_returns, says};
use history_reading::{EndReading, EventKind, Reading};
use ipdl_base::{Reason, Schema, Values, What};
use reading_checks::{block_each_other, is_still};

/// Whether the other end answered a call with these values.
fn is_answered(
    schema: &Schema,
    own: &EndReading<'_>,
    other: &EndReading<'_>,
    n: i32,
    values: &Values,
) -> bool
    requires { IsSound schema.now }
    ensures { result ≡ the.is_answered schema.now (end_view own.now) (end_view other.now) n values.now }
{
    let asked = ReplyTest::OkWith(own_returns(schema, own, n), values);
    says(schema, own, other, n, &asked)
}

/// Whether a call may get a fault without a reply that states it.
fn is_own_fault(
    schema: &Schema,
    own: &EndReading<'_>,
    other: &EndReading<'_>,
    n: i32,
    reason: Reason,
) -> bool
    requires { IsSound schema.now }
    ensures { result ≡ the.is_own_fault schema.now (end_view own.now) (end_view other.now) n reason }
{
    match reason {
        Reason::ChannelClosed => own.failed.has(n),
        Reason::ActorDestroyed => {
            let asked = ReplyTest::OkMissing(own_returns(schema, own, n));
            says(schema, own, other, n, &asked)
        }
        Reason::HandlerRejected | Reason::ResolverDestroyed => false,
    }
}

/// Whether a call resumes with a fault that has its cause.
fn is_failed(
    schema: &Schema,
    own: &EndReading<'_>,
    other: &EndReading<'_>,
    n: i32,
    reason: Reason,
) -> bool
    requires { IsSound schema.now }
    ensures { result ≡ the.is_failed schema.now (end_view own.now) (end_view other.now) n reason }
{
    let asked = ReplyTest::Fault(reason);
    says(schema, own, other, n, &asked) || is_own_fault(schema, own, other, n, reason)
}

/// Whether the end of the other side is delivered in an event.
fn is_end_event(event: EventKind) -> bool
    ensures { result ≡ the.is_end_event event }
{
    matches!(event, EventKind::Ends)
}

/// Whether the reply to a request of a number is delivered in order.
fn is_reply_in_order(own: &EndReading<'_>, n: i32) -> bool
    ensures { result ≡ the.is_reply_in_order (end_view own.now) n }
{
    !own.is_sync_request(n) || own.stack.awaits(n)
}

/// Whether a line obeys the law.
pub fn waits_line(
    schema: &Schema,
    own: &EndReading<'_>,
    other: &EndReading<'_>,
    what: &What,
) -> bool
    requires { IsSound schema.now }
    ensures { result ≡ the.waits_line schema.now (end_view own.now) (end_view other.now) what.now }
{
    match what {
        What::DeliverReply(n) => is_reply_in_order(own, *n),
        What::Fails(n) => own.stack.awaits(*n) && is_end_event(own.event),
        What::ResumeOk(n, values) => is_answered(schema, own, other, *n, values),
        What::ResumeFault(n, reason) => is_failed(schema, own, other, *n, *reason),
        _ => true,
    }
}

/// Whether an end waits to which the end of the other side was delivered in its last event.
fn waits_after_end(own: &EndReading<'_>) -> bool
    ensures { result ≡ the.waits_after_end (end_view own.now) }
{
    is_end_event(own.event) && own.stack.has_unanswered()
}

/// Whether some end waits.
fn some_waits(reading: &Reading<'_>) -> bool
    ensures { result ≡ the.some_waits (reading_view reading.now) }
{
    reading.parent.stack.has_unanswered() || reading.child.stack.has_unanswered()
}

/// Whether some end waits where nothing but acts is possible.
fn waits_while_still(schema: &Schema, reading: &Reading<'_>) -> bool
    requires { IsSound schema.now }
    ensures { result ≡ the.waits_while_still schema.now (reading_view reading.now) }
{
    some_waits(reading) && is_still(schema, reading)
}

/// Whether some end waits after the end of the other side.
fn some_waits_after_end(reading: &Reading<'_>) -> bool
    ensures { result ≡ the.some_waits_after_end (reading_view reading.now) }
{
    waits_after_end(&reading.parent) || waits_after_end(&reading.child)
}

/// Whether a moment obeys the law.
pub fn waits_moment(schema: &Schema, reading: &Reading<'_>) -> bool
    requires { IsSound schema.now }
    ensures { result ≡ the.waits_moment schema.now (reading_view reading.now) }
{
    if block_each_other(schema, reading) {
        false
    } else if some_waits_after_end(reading) {
        false
    } else {
        !waits_while_still(schema, reading)
    }
}

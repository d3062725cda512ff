//! The law Living: events concern living actors.
ghost use Rattle.std.specs.Prelude.{◌≡◌};
ghost use Rattle.ipdl_base.specs.Sound.{IsSound};
ghost use Rattle.history_reading.specs.EndReadings.{end_view};
ghost use Rattle.history_reading.specs.Views.{request_view};
ghost use Rattle.history_reading.specs.Living as the;
ghost use Rattle.history_reading.specs.Numbers.{id_of};

use history_reading::{EndReading, EventKind, Request, all_live, missing};
use ipdl_base::{ParamRow, Schema, Side, Values, What, params_of};

/// Returns the id of the `k`-th actor that an end constructs.
fn id_of(side: Side, k: usize) -> i128
    ensures { result ≡ id_of side k }
{
    match side {
        Side::Parent => 4 * k as i128 + 2,
        Side::Child => 4 * k as i128,
    }
}

/// Returns the actor that a request makes, or 0.
fn made_id(sender: Side, request: &Request<'_>) -> i128
    ensures { result ≡ the.made_id sender (request_view request.now) }
{
    if request.made == 0 {
        0
    } else {
        id_of(sender, request.made)
    }
}

/// Returns the actor that the request of a number of an end makes, or 0.
fn request_makes(sender: Side, own: &EndReading<'_>, n: i32) -> i128
    ensures { result ≡ the.request_makes sender (end_view own.now) n }
{
    match own.sent.request(n) {
        Some(request) => made_id(sender, &request),
        None => 0,
    }
}

/// Returns the actor that is made in an event, or 0.
fn event_makes(side: Side, own: &EndReading<'_>, other: &EndReading<'_>, event: EventKind) -> i128
    ensures { result ≡ the.event_makes side (end_view own.now) (end_view other.now) event }
{
    match event {
        EventKind::Sends(n, _) => request_makes(side, own, n),
        EventKind::Takes(n, _) => request_makes(side.other(), other, n),
        EventKind::Ends | EventKind::Closes | EventKind::Other => 0,
    }
}

/// Whether an actor is made in the event.
fn is_made(side: Side, own: &EndReading<'_>, other: &EndReading<'_>, id: i32) -> bool
    ensures { result ≡ the.is_made side (end_view own.now) (end_view other.now) id }
{
    id != 0 && event_makes(side, own, other, own.event) == i128::from(id)
}

/// Whether an actor is the first missing one in values.
fn is_missing_in(
    schema: &Schema,
    own: &EndReading<'_>,
    params: &[ParamRow],
    values: &Values,
    id: i32,
) -> bool
    ensures { result ≡ the.is_missing_in schema.now (end_view own.now) params.now values.now id }
{
    match missing(schema, own, params, values) {
        Some(first) => first == id,
        None => false,
    }
}

/// Whether an actor is the first missing one in the values of the other end's request of a number.
fn is_first_missing(
    schema: &Schema,
    own: &EndReading<'_>,
    other: &EndReading<'_>,
    n: i32,
    id: i32,
) -> bool
    requires { IsSound schema.now }
    ensures { result ≡ the.is_first_missing schema.now (end_view own.now) (end_view other.now) n id }
{
    match other.sent.request(n) {
        Some(request) => {
            let params = params_of(schema, request.number);
            is_missing_in(schema, own, params, request.values, id)
        }
        None => false,
    }
}

/// Whether a request to an actor is dropped for this one.
fn is_dropped_for(
    schema: &Schema,
    own: &EndReading<'_>,
    other: &EndReading<'_>,
    n: i32,
    route: i32,
    id: i32,
) -> bool
    requires { IsSound schema.now }
    ensures { result ≡ the.is_dropped_for schema.now (end_view own.now) (end_view other.now) n route id }
{
    if own.lives(id) {
        false
    } else if id == route {
        true
    } else {
        own.lives(route) && is_first_missing(schema, own, other, n, id)
    }
}

/// Whether a request is handled for living actors alone.
fn is_taken_alive(
    schema: &Schema,
    own: &EndReading<'_>,
    route: i32,
    number: u32,
    values: &Values,
) -> bool
    requires { IsSound schema.now }
    ensures { result ≡ the.is_taken_alive schema.now (end_view own.now) route number values.now }
{
    own.lives(route) && all_live(schema, own, params_of(schema, number), values)
}

/// Whether an actor is built as the law requires.
fn is_built_right(side: Side, own: &EndReading<'_>, other: &EndReading<'_>, id: i32) -> bool
    ensures { result ≡ the.is_built_right side (end_view own.now) (end_view other.now) id }
{
    !own.was_built(id) && is_made(side, own, other, id)
}

/// Whether a line obeys the law.
pub fn living_line(
    schema: &Schema,
    side: Side,
    own: &EndReading<'_>,
    other: &EndReading<'_>,
    what: &What,
) -> bool
    requires { IsSound schema.now }
    ensures { result ≡ the.living_line schema.now side (end_view own.now) (end_view other.now) what.now }
{
    match what {
        What::Send(_, route, _, _) | What::Call(_, _, route, _, _) => own.lives(*route),
        What::Take(_, route, number, values) => {
            is_taken_alive(schema, own, *route, *number, values)
        }
        What::Drop(n, route, _, id) => is_dropped_for(schema, own, other, *n, *route, *id),
        What::Built(id, _) => is_built_right(side, own, other, *id),
        _ => true,
    }
}

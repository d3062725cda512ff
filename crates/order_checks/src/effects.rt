//! Whether a line gives the effects that it owes.
ghost use Rattle.std.specs.Prelude.{◌≡◌};
ghost use Rattle.std.specs.List.{list_all};
ghost use Rattle.ipdl_base.specs.Lines.{same_side};
ghost use Rattle.ipdl_base.specs.Sound.{IsSound};
ghost use Rattle.history_reading.specs.EndReadings.{end_view};
ghost use Rattle.order_statements.specs.Shape as shape;
ghost use Rattle.order_checks.specs.EffectTests as the;

use crate::effect_lines::{
    effects_next, has_fallen, is_birth_alone, is_birth_last, is_fault_alone, is_fault_due,
    is_fault_first, is_none, is_return_first, is_settling_alone,
};
use crate::rows::{constructor_of, is_destructor, is_sync_number, owes_reply, wants_number};
use history_reading::{CallFrame, EndReading, HandledRequest, NumberList};
use ipdl_base::{EndState, Line, Name, Reason, Schema, Side, What};

/// Whether an end is open.
pub fn is_open(state: EndState) -> bool
    ensures { result ≡ shape.is_open state }
{
    matches!(state, EndState::Open)
}

/// Whether both are the same end.
pub fn same_side(a: Side, b: Side) -> bool
    ensures { result ≡ same_side a b }
{
    matches!(
        (a, b),
        (Side::Parent, Side::Parent) | (Side::Child, Side::Child)
    )
}

/// Whether the actor of a destructor has fallen.
#[tactic(auto, unfolding(crate::specs::EffectTests::is_deletion_given))]
fn is_deletion_given(
    schema: &Schema,
    own: &EndReading<'_>,
    route: i32,
    number: u32,
    effects: &[Line],
) -> bool
    requires { IsSound schema.now }
    ensures { result ≡ the.is_deletion_given schema.now (end_view own.now).fallen route number (the.whats effects.now) }
{
    !is_destructor(schema, number) || has_fallen(effects, &own.fallen, route)
}

/// Whether the actor of a constructor that is sent is built.
fn is_birth_given(schema: &Schema, own: &EndReading<'_>, number: u32, effects: &[Line]) -> bool
    requires { IsSound schema.now }
    ensures { result ≡ the.is_birth_given schema.now (end_view own.now).fallen number (the.whats effects.now) }
{
    match constructor_of(schema, number) {
        Some(protocol) => is_birth_last(effects, &own.fallen, protocol),
        None => true,
    }
}

/// Whether a send or call gives what is due.
fn is_sent_right(
    schema: &Schema,
    own: &EndReading<'_>,
    route: i32,
    number: u32,
    effects: &[Line],
) -> bool
    requires { IsSound schema.now }
    ensures { result ≡ the.is_sent_right schema.now (end_view own.now) route number (the.whats effects.now) }
{
    is_deletion_given(schema, own, route, number, effects)
        && is_birth_given(schema, own, number, effects)
}

/// Whether a take does.
fn is_taken_right(schema: &Schema, own: &EndReading<'_>, number: u32, effects: &[Line]) -> bool
    requires { IsSound schema.now }
    ensures { result ≡ the.is_taken_right schema.now (end_view own.now) number (the.whats effects.now) }
{
    match constructor_of(schema, number) {
        Some(protocol) => is_birth_alone(effects, &own.fallen, protocol),
        None => true,
    }
}

/// Whether a drop does.
fn is_dropped_right(
    schema: &Schema,
    own: &EndReading<'_>,
    n: i32,
    number: u32,
    effects: &[Line],
) -> bool
    requires { IsSound schema.now }
    ensures { result ≡ the.is_dropped_right schema.now (end_view own.now) n number (the.whats effects.now) }
{
    let due = is_open(own.state) && owes_reply(schema, number);
    is_fault_due(effects, due, n, Reason::ActorDestroyed)
}

/// Whether a line keeps the resolver of the request of a number.
fn is_keep_of(what: &What, n: i32) -> bool
    ensures { result ≡ the.is_keep_of n what.now }
{
    match what {
        What::Keep(m, _) => *m == n,
        _ => false,
    }
}

/// Whether a line of an end does.
fn is_keep_at(line: &Line, side: Side, n: i32) -> bool
    ensures { result ≡ the.is_keep_at side n line.now }
{
    same_side(line.side, side) && is_keep_of(&line.what, n)
}

/// Whether an end has kept the resolver of the request of a number.
fn was_kept(before: &[Line], side: Side, n: i32) -> bool
    ensures { result ≡ the.was_kept side n before.now }
{
    before.iter().any(|line| is_keep_at(line, side, n))
}

/// Whether the resolver of a request that is handled is still there.
fn is_held(
    schema: &Schema,
    side: Side,
    answered: &NumberList,
    before: &[Line],
    handled: &HandledRequest,
) -> bool
    requires { IsSound schema.now }
    ensures { result ≡ the.is_held schema.now side answered.now before.now handled.now }
{
    wants_number(schema, handled.number)
        && !answered.has(handled.seq)
        && !was_kept(before, side, handled.seq)
}

/// Whether the return of a handler answers to a sync request.
fn is_sync_answered(
    schema: &Schema,
    own: &EndReading<'_>,
    handled: &HandledRequest,
    effects: &[Line],
) -> bool
    requires { IsSound schema.now }
    ensures { result ≡ the.is_sync_answered schema.now (end_view own.now) handled.now (the.whats effects.now) }
{
    if is_open(own.state) && is_sync_number(schema, handled.number) {
        is_return_first(effects, handled.seq)
    } else {
        true
    }
}

/// Whether it answers for a resolver that is still there.
fn is_resolver_answered(
    schema: &Schema,
    side: Side,
    own: &EndReading<'_>,
    answered: &NumberList,
    before: &[Line],
    handled: &HandledRequest,
    effects: &[Line],
) -> bool
    requires { IsSound schema.now }
    ensures { result ≡ the.is_resolver_answered schema.now side (end_view own.now) answered.now before.now handled.now (the.whats effects.now) }
{
    if is_open(own.state) && is_held(schema, side, answered, before, handled) {
        is_fault_first(effects, handled.seq, Reason::ResolverDestroyed)
    } else {
        true
    }
}

/// Whether the return of a handler answers as is due.
#[tactic(auto, unfolding(crate::specs::EffectTests::is_return_answered))]
fn is_return_answered(
    schema: &Schema,
    side: Side,
    own: &EndReading<'_>,
    answered: &NumberList,
    before: &[Line],
    handled: &HandledRequest,
    effects: &[Line],
) -> bool
    requires { IsSound schema.now }
    ensures { result ≡ the.is_return_answered schema.now side (end_view own.now) answered.now before.now handled.now (the.whats effects.now) }
{
    is_sync_answered(schema, own, handled, effects)
        && is_resolver_answered(schema, side, own, answered, before, handled, effects)
}

/// Whether the return of a handler gives what is due.
fn is_returned_right(
    schema: &Schema,
    side: Side,
    own: &EndReading<'_>,
    answered: &NumberList,
    before: &[Line],
    handled: &HandledRequest,
    effects: &[Line],
) -> bool
    requires { IsSound schema.now }
    ensures { result ≡ the.is_returned_right schema.now side (end_view own.now) answered.now before.now handled.now (the.whats effects.now) }
{
    is_return_answered(schema, side, own, answered, before, handled, effects)
        && is_deletion_given(schema, own, handled.route, handled.number, effects)
}

/// Whether the return of the handler on top does.
fn is_top_returned(
    schema: &Schema,
    side: Side,
    own: &EndReading<'_>,
    answered: &NumberList,
    before: &[Line],
    effects: &[Line],
) -> bool
    requires { IsSound schema.now }
    ensures { result ≡ the.is_top_returned schema.now side (end_view own.now) answered.now before.now (end_view own.now).stack (the.whats effects.now) }
{
    match own.stack.top() {
        Some(CallFrame::Dispatch(handled)) => {
            is_returned_right(schema, side, own, answered, before, &handled, effects)
        }
        _ => true,
    }
}

/// Whether a resolver that a name held is dropped.
fn is_let_go(what: &What, answered: &NumberList, name: &Name, effects: &[Line]) -> bool
    ensures { result ≡ the.is_let_go answered.now name.now (the.whats effects.now) what.now }
{
    match what {
        What::Keep(n, held) => {
            if *held == *name && !answered.has(*n) {
                is_fault_alone(effects, *n, Reason::ResolverDestroyed)
            } else {
                true
            }
        }
        _ => true,
    }
}

/// Whether one that a line of an end put there is.
fn is_let_go_at(
    line: &Line,
    side: Side,
    answered: &NumberList,
    name: &Name,
    effects: &[Line],
) -> bool
    ensures { result ≡ the.is_let_go_at side answered.now name.now (the.whats effects.now) line.now }
{
    !same_side(line.side, side) || is_let_go(&line.what, answered, name, effects)
}

/// Whether each that lines of an end put there is.
fn are_let_go(
    before: &[Line],
    side: Side,
    answered: &NumberList,
    name: &Name,
    effects: &[Line],
) -> bool
    ensures { result ≡ list_all (the.is_let_go_at side answered.now name.now (the.whats effects.now)) before.now }
{
    before
        .iter()
        .all(|line| is_let_go_at(line, side, answered, name, effects))
}

/// Whether a name that gets something else drops what it held.
fn is_renamed_right(
    side: Side,
    own: &EndReading<'_>,
    answered: &NumberList,
    before: &[Line],
    name: &Name,
    effects: &[Line],
) -> bool
    ensures { result ≡ the.is_renamed_right side (end_view own.now) answered.now before.now name.now (the.whats effects.now) }
{
    !is_open(own.state) || are_let_go(before, side, answered, name, effects)
}

/// Whether a reply that is taken settles its promise.
fn is_reply_right(own: &EndReading<'_>, n: i32, effects: &[Line]) -> bool
    ensures { result ≡ the.is_reply_right (end_view own.now) n (the.whats effects.now) }
{
    if own.settled.has(n) {
        is_none(effects)
    } else {
        is_settling_alone(effects, n)
    }
}

/// Whether a line gives the effects that it owes, after the lines before it and before those after it.
pub fn effects_line(
    schema: &Schema,
    side: Side,
    own: &EndReading<'_>,
    answered: &NumberList,
    before: &[Line],
    what: &What,
    following: &[Line],
) -> bool
    requires { IsSound schema.now }
    ensures { result ≡ the.effects_line schema.now side (end_view own.now) answered.now before.now what.now following.now }
{
    let effects = effects_next(following);
    match what {
        What::Send(_, route, number, _) | What::Call(_, _, route, number, _) => {
            is_sent_right(schema, own, *route, *number, effects)
        }
        What::Take(_, _, number, _) => is_taken_right(schema, own, *number, effects),
        What::Drop(n, _, number, _) => is_dropped_right(schema, own, *n, *number, effects),
        What::Return(_) => is_top_returned(schema, side, own, answered, before, effects),
        What::Keep(_, name) | What::Let(name, _) => {
            is_renamed_right(side, own, answered, before, name, effects)
        }
        What::TakeReply(n) => is_reply_right(own, *n, effects),
        What::RefusedSend(..)
        | What::RefusedClose(_)
        | What::RefusedResolve(_)
        | What::RefusedReject(_) => is_none(effects),
        _ => true,
    }
}

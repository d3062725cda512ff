//! Whether the calls of an end may be tried: what their contracts require.
ghost use Rattle.std.specs.Prelude.{◌≡◌, true, IsTrue, Some, option_map};
ghost use Rattle.ipdl_base.specs.Plain.{plain_values};
ghost use Rattle.ipdl_base.specs.Sound.{IsSound};
ghost use Rattle.channel_model.specs.Numbers.{is_constructor, is_sync_row, makes_promise, request_row};
ghost use Rattle.channel_core.specs.Answers.{IsHandedBack};
ghost use Rattle.channel_core.specs.Steps.{MaySend, MayAnswer, MayReturn};
ghost use Rattle.channel_model.specs.Answers.{handled_resolver, have_return_types, may_answer};
ghost use Rattle.channel_model.specs.Events.{handled, kept};
ghost use Rattle.channel_model.specs.Returns.{may_return};
ghost use Rattle.channel_model.specs.Sends.{may_act, may_send};
ghost use Rattle.channel_model.specs.Typed.{have_types};

use channel_core::{End, EndState, Resolver, RunningHandler, Top};
use channel_model::decides_types;
use ipdl_base::{Kind, MessageRow, Name, ParamRow, Schema, Semantics, Values, returns_of_row};
use value_types::{boxes_say_nothing, values_fit};

/// Whether an end may act: it has not died, and no call on top of its stack waits or may resume.
pub fn may_act(end: &End) -> bool
    ensures { result ≡ may_act end.now.end }
{
    match (end.state(), end.top()) {
        (EndState::Dead, _) | (_, Top::Unanswered) | (_, Top::Answered) => false,
        (_, Top::Empty) | (_, Top::Dispatch) => true,
    }
}

/// The message whose request has a number.
pub fn request_row(schema: &Schema, number: u32) -> Option<&MessageRow>
    requires { IsSound schema.now }
    ensures { option_map (λ row. row.now) result ≡ request_row schema.now number }
{
    let row = schema.message(number)?;
    if row.number == number {
        Some(row)
    } else {
        None
    }
}

/// Whether values have the types of parameters.
pub fn have_types(schema: &Schema, params: &[ParamRow], values: &Values) -> bool
    ensures { result ≡ have_types schema.now params.now (plain_values values.now) }
{
    boxes_say_nothing();
    decides_types();
    values_fit(schema, params, values)
}

fn is_constructor(kind: Kind) -> bool
    ensures { result ≡ is_constructor kind }
{
    match kind {
        Kind::Constructor(_) => true,
        Kind::Normal | Kind::Delete => false,
    }
}

fn is_sync(row: &MessageRow) -> bool
    ensures { result ≡ is_sync_row row.now }
{
    match row.semantics {
        Semantics::Sync => true,
        Semantics::Async => false,
    }
}

/// Whether an end may try to send a message with these values and, if there is one, this name.
fn may_send_row(
    schema: &Schema,
    end: &End,
    row: &MessageRow,
    values: &Values,
    name: Option<&Name>,
) -> bool
    ensures { result ≡ may_send schema.now end.now.end row.now (plain_values values.now) (option_map (λ n. n.now) name.entry) }
{
    may_act(end)
        && row.carried
        && end.side().sends(row.direction)
        && have_types(schema, row.params.as_slice(), values)
        && (name.is_none() || is_constructor(row.kind))
}

/// Whether an end may try to send a request of a message.
pub fn may_send(
    schema: &Schema,
    end: &End,
    number: u32,
    values: &Values,
    name: Option<&Name>,
) -> bool
    requires sound { IsSound schema.now }
    requires same { end.now.schema ≡ schema.now }
    ensures { IsTrue result → MaySend end.now number (plain_values values.now) (option_map (λ n. n.now) name.entry) }
{
    match request_row(schema, number) {
        None => false,
        Some(row) => may_send_row(schema, end, row, values, name),
    }
}

/// Whether values, if there are some, have the types of a message's returns.
fn have_return_types(schema: &Schema, row: &MessageRow, values: Option<&Values>) -> bool
    ensures { result ≡ have_return_types schema.now row.now (option_map (λ vs. plain_values vs.now) values.entry) }
{
    match values {
        None => true,
        Some(values) => have_types(schema, returns_of_row(row), values),
    }
}

/// Whether an end may try to answer a request of a message by values, or by none.
fn may_answer(schema: &Schema, end: &End, row: &MessageRow, values: Option<&Values>) -> bool
    ensures { result ≡ may_answer schema.now end.now.end row.now (option_map (λ vs. plain_values vs.now) values.entry) }
{
    may_act(end) && have_return_types(schema, row, values)
}

/// Whether an end may try to answer by a resolver, which is that of a handler that runs here.
pub fn may_answer_by(
    schema: &Schema,
    end: &End,
    resolver: &Resolver,
    values: Option<&Values>,
) -> bool
    requires sound { IsSound schema.now }
    requires same { end.now.schema ≡ schema.now }
    ensures own { IsTrue result → handled_resolver end.now.end resolver.now.seq ≡ Some resolver.now }
    ensures may { IsTrue result → MayAnswer end.now (handled resolver.now.seq) (option_map (λ vs. plain_values vs.now) values.entry) }
{
    if !end.has_resolver(resolver) {
        return false;
    }
    match request_row(schema, resolver.number()) {
        None => false,
        Some(row) => may_answer(schema, end, row, values),
    }
}

/// Whether a message is async with returns.
fn makes_promise(row: &MessageRow) -> bool
    ensures { result ≡ makes_promise row.now }
{
    !is_sync(row) && row.returns.is_some()
}

/// Whether an end may try to answer a request of a message by a name.
pub fn may_answer_named(
    schema: &Schema,
    end: &End,
    name: &Name,
    number: u32,
    values: Option<&Values>,
) -> bool
    requires sound { IsSound schema.now }
    requires same { end.now.schema ≡ schema.now }
    ensures { IsTrue result → MayAnswer end.now (kept name.now number) (option_map (λ vs. plain_values vs.now) values.entry) }
{
    match request_row(schema, number) {
        None => false,
        Some(row) => may_answer_row(schema, end, row, values),
    }
}

/// The same where the message is async with returns.
fn may_answer_row(schema: &Schema, end: &End, row: &MessageRow, values: Option<&Values>) -> bool
    ensures promise { IsTrue result → makes_promise row.now ≡ true }
    ensures may { IsTrue result → may_answer schema.now end.now.end row.now (option_map (λ vs. plain_values vs.now) values.entry) ≡ true }
{
    makes_promise(row) && may_answer(schema, end, row, values)
}

/// Whether a handler of a message may return these values, or none.
fn may_return_row(schema: &Schema, row: &MessageRow, values: Option<&Values>) -> bool
    ensures { result ≡ may_return schema.now row.now (option_map (λ vs. plain_values vs.now) values.entry) }
{
    match values {
        None => true,
        Some(values) => {
            is_sync(row) && row.returns.is_some() && have_types(schema, returns_of_row(row), values)
        }
    }
}

/// Whether the handler on top may return these values, or none.
pub fn may_return(schema: &Schema, end: &End, values: Option<&Values>) -> bool
    requires sound { IsSound schema.now }
    requires same { end.now.schema ≡ schema.now }
    ensures { IsTrue result → MayReturn end.now (option_map (λ vs. plain_values vs.now) values.entry) }
{
    match end.running() {
        None => false,
        Some(running) => match request_row(schema, running.number) {
            None => false,
            Some(row) => may_return_row(schema, row, values),
        },
    }
}

/// Whether a resolver is what the handler on top hands back, or there is none and it has none.
pub fn is_handed_back(end: &End, resolver: Option<&Resolver>) -> bool
    ensures { IsTrue result → IsHandedBack end.now (option_map (λ r. r.now) resolver.entry) }
{
    match (end.running(), resolver) {
        (None, None) => true,
        (None, Some(_)) => false,
        (Some(running), None) => !running.has_resolver,
        (Some(running), Some(resolver)) => is_resolver_of(&running, resolver),
    }
}

/// Whether a resolver is that of a handler, which has it.
fn is_resolver_of(running: &RunningHandler, resolver: &Resolver) -> bool
    ensures has { IsTrue result → running.now.has_resolver ≡ true }
    ensures same { IsTrue result → resolver.now ≡ record { seq = running.now.seq; route = running.now.route; number = running.now.number } }
{
    running.has_resolver
        && resolver.seq() == running.seq
        && resolver.route() == running.route
        && resolver.number() == running.number
}

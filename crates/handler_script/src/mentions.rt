//! Which actors and parameters a statement refers to, and which message it names.

ghost use Rattle.std.specs.Prelude.{◌≡◌, option_map};
ghost use Rattle.handler_script.specs.Broken.{is_unknown};
ghost use Rattle.handler_script.specs.Contexts.{standing_in};
ghost use Rattle.handler_script.specs.ValueQuery.{test_of};
ghost use Rattle.handler_script.specs.Mentions as mentions;

use crate::context::Context;
use crate::fits::param_at;
use crate::messages::is_constructor;
use ipdl_base::ParamRow;
use script_reader::{Atom, MessageName, Statement, Who, WrittenValue, WrittenValues};

/// A question about the actors and parameters that values refer to.
#[derive(Clone, Copy)]
pub enum ValueQuery<'a> {
    /// Whether it is a parameter that these do not include.
    Absent(&'a [ParamRow]),
    /// Whether it is unknown in this block.
    Unknown(Context<'a>),
}

/// Returns whether an actor or parameter is unknown in a block.
fn is_unknown(context: Context<'_>, who: &Who) -> bool
    ensures { result ≡ is_unknown (standing_in context.entry) who.now }
{
    match (context, who) {
        (Context::Main(_), Who::This | Who::Param(_) | Who::Made) => true,
        (Context::Handler(_, message), Who::Made) => !is_constructor(message.kind),
        _ => false,
    }
}

/// Returns whether the answer for this actor or parameter is yes.
fn passes(asked: ValueQuery<'_>, who: &Who) -> bool
    ensures { result ≡ test_of asked.entry who.now }
{
    match asked {
        ValueQuery::Absent(given) => match who {
            Who::Param(n) => param_at(given, *n).is_none(),
            _ => false,
        },
        ValueQuery::Unknown(context) => is_unknown(context, who),
    }
}

/// Returns whether the answer is yes for something that a value refers to.
#[cycle(mentions)]
fn value_mentions(value: &WrittenValue, asked: ValueQuery<'_>) -> bool
    ensures { result ≡ mentions.mentions (test_of asked.entry) value.now }
{
    match value {
        WrittenValue::Atom(Atom::Who(who)) => passes(asked, who),
        WrittenValue::Atom(_) => false,
        WrittenValue::Struct(values) => any_mentions(values, asked),
        WrittenValue::Array(values) => any_mentions(values, asked),
        WrittenValue::Union(_, held) => value_mentions(held, asked),
        WrittenValue::Held(held) => value_mentions(held, asked),
    }
}

/// Returns whether the answer is yes for something that values refer to.
#[cycle(mentions)]
pub fn any_mentions(values: &WrittenValues, asked: ValueQuery<'_>) -> bool
    ensures { result ≡ mentions.any_mentions (test_of asked.entry) values.now }
{
    match values {
        WrittenValues::Nothing => false,
        WrittenValues::First(value, rest) => {
            value_mentions(value, asked) || any_mentions(rest, asked)
        }
    }
}

/// Returns the values of a statement, if it has values.
pub fn values_of(statement: &Statement) -> Option<&WrittenValues>
    ensures { option_map (λ vs. vs.now) result ≡ mentions.values_of statement.now }
{
    match statement {
        Statement::Send(_, call) | Statement::New(_, _, call) | Statement::ResolveKept(_, call) =>
            Some(&call.values),
        Statement::Resolve(values) | Statement::Return(values) => Some(values),
        _ => None,
    }
}

/// Returns the actor that a statement sends to or names, if it has one.
pub fn who_of(statement: &Statement) -> Option<&Who>
    ensures { option_map (λ w. w.now) result ≡ mentions.who_of statement.now }
{
    match statement {
        Statement::Send(who, _) | Statement::New(_, who, _) | Statement::Let(_, who) => Some(who),
        _ => None,
    }
}

/// Returns the message that a statement names, if it names one.
pub fn message_of(statement: &Statement) -> Option<&MessageName>
    ensures { option_map (λ m. m.now) result ≡ mentions.message_of statement.now }
{
    match statement {
        Statement::On(_, message) | Statement::RejectKept(_, message) => Some(message),
        Statement::Send(_, call) | Statement::New(_, _, call) | Statement::ResolveKept(_, call) =>
            Some(&call.message),
        _ => None,
    }
}

/// Returns whether the answer is yes for something that a statement refers to.
pub fn speaks_of(statement: &Statement, asked: ValueQuery<'_>) -> bool
    ensures { result ≡ mentions.speaks_of (test_of asked.entry) statement.now }
{
    let who = match who_of(statement) {
        Some(who) => passes(asked, who),
        None => false,
    };
    let values = match values_of(statement) {
        Some(values) => any_mentions(values, asked),
        None => false,
    };
    who || values
}

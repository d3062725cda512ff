//! The tests of the rules on one statement.

ghost use Rattle.std.specs.Prelude.{◌≡◌, ◌↔◌, false, IsTrue, IsNone, IsSomeAnd, List, option_and_then, option_map};
ghost use Rattle.ipdl_base.specs.declared.schema.Schema.{Schema as SchemaType};
ghost use Rattle.script_reader.specs.declared.statement.Statement.{Statement as StatementType};
ghost use Rattle.handler_script.specs.Blocks as blocks;
ghost use Rattle.handler_script.specs.Broken as broken;
ghost use Rattle.handler_script.specs.Contexts.{standing_in};
ghost use Rattle.handler_script.specs.Knowing.{Knows};
ghost use Rattle.handler_script.specs.Messages as messages;

use crate::context::{Context, handled_in, side_of};
use crate::fits::{each_fits, is_actor, param_at};
use crate::lines::{BlockProgress, answers, is_closed, is_followed, opens};
use crate::mentions::{ValueQuery, any_mentions, message_of, speaks_of, values_of, who_of};
use crate::messages::{is_constructor, replies, resolves};
use ipdl_base::{MessageRow, ParamRow, Schema};
use script_reader::{LineReading, Statement, Who, WrittenValues};

/// Returns whether a statement names a message that does not exist.
pub fn names_none(statement: &Statement, message: Option<&MessageRow>) -> bool
    ensures { IsTrue result ↔ broken.NamesNone (option_map (λ m. m.now) message.entry) statement.now }
{
    message_of(statement).is_some() && message.is_none()
}

/// Returns the message that a statement sends, if it sends one, where `message` is the message that it
/// names.
pub fn sent<'a>(statement: &Statement, message: Option<&'a MessageRow>) -> Option<&'a MessageRow>
    ensures { option_map (λ m. m.now) result ≡ broken.sent (option_map (λ m. m.now) message.entry) statement.now }
{
    match statement {
        Statement::Send(_, _) | Statement::New(_, _, _) => message,
        _ => None,
    }
}

/// Returns whether a message is sent that the side of the block cannot send.
pub fn is_missent(context: Context<'_>, sent: Option<&MessageRow>) -> bool
    ensures { IsTrue result ↔ broken.IsMissent (standing_in context.entry) (option_map (λ m. m.now) sent.entry) }
{
    match sent {
        Some(message) => !side_of(context).sends(message.direction),
        None => false,
    }
}

/// Returns whether a message is sent that no channel carries.
pub fn is_unsent(sent: Option<&MessageRow>) -> bool
    ensures { IsTrue result ↔ broken.IsUnsent (option_map (λ m. m.now) sent.entry) }
{
    match sent {
        Some(message) => !message.carried,
        None => false,
    }
}

/// Returns whether it is a parameter that does not exist or is not an actor.
fn is_no_actor(given: &[ParamRow], who: &Who) -> bool
    ensures { result ≡ broken.is_no_actor given.now who.now }
{
    match who {
        Who::Param(n) => match param_at(given, *n) {
            Some(param) => !is_actor(&param.shape),
            None => true,
        },
        _ => false,
    }
}

/// Returns the types of the values that resolve the message of a block, if a resolver answers it.
fn resolves_in<'a>(context: Context<'a>) -> Option<&'a [ParamRow]>
    ensures { option_map (λ ps. ps.now) result ≡ option_and_then messages.resolves (blocks.handled_in (standing_in context.entry)) }
{
    resolves(handled_in(context)?)
}

/// Returns the types of the values that the message of a block gives back, if it is sync and has
/// returns.
pub fn replies_in<'a>(context: Context<'a>) -> Option<&'a [ParamRow]>
    ensures { option_map (λ ps. ps.now) result ≡ option_and_then messages.replies (blocks.handled_in (standing_in context.entry)) }
{
    replies(handled_in(context)?)
}

/// Returns the types that the values of a statement must fit, if there are any.
pub fn types_of<'a>(
    context: Context<'a>,
    statement: &Statement,
    message: Option<&'a MessageRow>,
) -> Option<&'a [ParamRow]>
    ensures { option_map (λ ps. ps.now) result ≡ broken.types_by (option_map (λ m. m.now) message.entry) (standing_in context.entry) statement.now }
{
    match statement {
        Statement::Send(_, _) | Statement::New(_, _, _) => Some(message?.params.as_slice()),
        Statement::Resolve(_) => resolves_in(context),
        Statement::ResolveKept(_, _) => resolves(message?),
        Statement::Return(_) => replies_in(context),
        _ => None,
    }
}

/// Returns whether values do not fit the types or, if there are no types, refer to a parameter that
/// does not exist.
fn are_unfit(
    schema: &Schema,
    given: &[ParamRow],
    types: Option<&[ParamRow]>,
    values: &WrittenValues,
) -> bool
    ensures { IsTrue result ↔ broken.AreUnfit schema.now given.now (option_map (λ ps. ps.now) types.entry) values.now }
{
    match types {
        Some(types) => !each_fits(values, schema, given, types),
        None => any_mentions(values, ValueQuery::Absent(given)),
    }
}

/// Returns whether a statement is sent to what is not an actor, or its values do not fit these types.
pub fn values_break(
    schema: &Schema,
    given: &[ParamRow],
    types: Option<&[ParamRow]>,
    statement: &Statement,
) -> bool
    ensures { IsTrue result ↔ broken.ValuesBreak schema.now given.now (option_map (λ ps. ps.now) types.entry) statement.now }
{
    let is_no_actor = match who_of(statement) {
        Some(who) => is_no_actor(given, who),
        None => false,
    };
    let are_unfit = match values_of(statement) {
        Some(values) => are_unfit(schema, given, types, values),
        None => false,
    };
    is_no_actor || are_unfit
}

/// Returns whether a message exists and no resolver answers it.
fn is_unresolved(message: Option<&MessageRow>) -> bool
    ensures { IsTrue result ↔ IsSomeAnd (option_map (λ m. m.now) message.entry) (λ m. IsNone (messages.resolves m)) }
{
    match message {
        Some(message) => resolves(message).is_none(),
        None => false,
    }
}

/// Returns whether a message exists and is not a constructor.
fn is_other_constructor(message: Option<&MessageRow>) -> bool
    ensures { IsTrue result ↔ IsSomeAnd (option_map (λ m. m.now) message.entry) (λ m. messages.is_constructor m.kind ≡ false) }
{
    match message {
        Some(message) => !is_constructor(message.kind),
        None => false,
    }
}

/// Returns whether a statement is in a block, or at a place in a block, that does not allow its kind.
fn is_misplaced(
    context: Context<'_>,
    answered: bool,
    statement: &Statement,
    message: Option<&MessageRow>,
    after: &[LineReading],
) -> bool
    ensures { IsTrue result
        ↔ broken.IsMisplaced (option_map (λ m. m.now) message.entry) answered (standing_in context.entry) statement.now (blocks.statements after.now) }
{
    match statement {
        Statement::New(_, _, _) => is_other_constructor(message),
        Statement::Return(_) => replies_in(context).is_none() || is_followed(after),
        Statement::ResolveKept(_, _) | Statement::RejectKept(_, _) => is_unresolved(message),
        _ => answers(statement) && (resolves_in(context).is_none() || answered),
    }
}

/// Returns whether a statement is not allowed where it is.
pub fn is_not_allowed(
    context: Context<'_>,
    answered: bool,
    statement: &Statement,
    message: Option<&MessageRow>,
    after: &[LineReading],
) -> bool
    ensures { IsTrue result
        ↔ broken.IsNotAllowed (option_map (λ m. m.now) message.entry) answered (standing_in context.entry) statement.now (blocks.statements after.now) }
{
    speaks_of(statement, ValueQuery::Unknown(context))
        || is_misplaced(context, answered, statement, message, after)
}

/// Returns whether a statement is a second main of its side.
fn is_second_main(reached: BlockProgress<'_>, statement: &Statement) -> bool
    ensures { (schema : SchemaType) (before : List StatementType) → Knows schema before reached.entry
        → IsTrue result ↔ broken.IsSecondMain before statement.now }
{
    match statement {
        Statement::Main(side) => reached.has_main(*side),
        _ => false,
    }
}

/// Returns whether a statement breaks the structure of blocks.
pub fn breaks_blocks(
    reached: BlockProgress<'_>,
    statement: &Statement,
    after: &[LineReading],
) -> bool
    ensures { (schema : SchemaType) (before : List StatementType) → Knows schema before reached.entry
        → IsTrue result ↔ broken.BreaksBlocks before statement.now (blocks.statements after.now) }
{
    if !opens(statement) {
        return reached.block.is_none();
    }
    reached.block.is_some() || is_second_main(reached, statement) || !is_closed(after)
}

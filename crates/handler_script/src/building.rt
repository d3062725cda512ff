//! Builds the blocks of a script from the readings of its lines.

ghost use Rattle.std.specs.Prelude.{◌≡◌, ◌++◌, map, IfOk, OnOk};
ghost use Rattle.std.specs.List.{filter_map};
ghost use Rattle.std.specs.Option.{option_map};
ghost use Rattle.handler_script.specs.Building.{listed, returned_by, blocks_of_line};
ghost use Rattle.handler_script.specs.Contexts.{standing_in};
ghost use Rattle.handler_script.specs.Plain.{plain_terms, plain_action, plain_block};
ghost use Rattle.handler_script.specs.ScriptOf as script_of;
ghost use Rattle.handler_script.specs.Tables.{IsTableOf};
ghost use Rattle.handler_script.specs.Terms as terms;

use crate::action::{Action, Actions, Block, Blocks};
use crate::context::{Context, context_of, handled_in, side_of};
use crate::lines::{closes, lines_after, opens, said};
use crate::rules::{replies_in, types_of};
use crate::table::MessageTable;
use crate::term::Terms;
use crate::typed::{copy_who, terms_of};
use ipdl_base::{Items, MessageRow, ParamRow, Schema};
use script_reader::{LineReading, Statement, WrittenValues};
use std::alloc::{AllocError, Global};

/// Returns the number of a request, or 0 if there is no message.
fn request_of(message: Option<&MessageRow>) -> u32
    ensures { result ≡ script_of.request_of (option_map (λ m. m.now) message.entry) }
{
    match message {
        Some(message) => message.number,
        None => 0,
    }
}

/// Returns the action of a statement that names this message and has values of these types, if it is an
/// action.
fn action_of(
    alloc: Global,
    schema: &Schema,
    types: &[ParamRow],
    statement: &Statement,
    message: Option<&MessageRow>,
) -> Result<Option<Action>, AllocError>
    ensures { IfOk result (λ a. option_map plain_action a
        ≡ script_of.action_by (option_map (λ m. m.now) message.entry) (terms.terms_of schema.now types.now) statement.now) }
{
    let number = request_of(message);
    let action = match statement {
        Statement::Send(who, call) => Action::Send {
            who: copy_who(alloc, who)?,
            number,
            values: terms_of(&call.values, alloc, schema, types)?,
        },
        Statement::New(name, who, call) => Action::New {
            name: name.copy(alloc)?,
            who: copy_who(alloc, who)?,
            number,
            values: terms_of(&call.values, alloc, schema, types)?,
        },
        Statement::Let(name, who) => Action::Let {
            name: name.copy(alloc)?,
            who: copy_who(alloc, who)?,
        },
        Statement::Resolve(values) => Action::Resolve {
            values: terms_of(values, alloc, schema, types)?,
        },
        Statement::Reject => Action::Reject,
        Statement::Keep(name) => Action::Keep {
            name: name.copy(alloc)?,
        },
        Statement::ResolveKept(name, call) => Action::ResolveNamed {
            name: name.copy(alloc)?,
            number,
            values: terms_of(&call.values, alloc, schema, types)?,
        },
        Statement::RejectKept(name, _) => Action::RejectNamed {
            name: name.copy(alloc)?,
            number,
        },
        Statement::Close => Action::Close,
        Statement::Die => Action::Die,
        Statement::Main(_) | Statement::On(_, _) | Statement::End | Statement::Return(_) => {
            return Ok(None);
        }
    };
    Ok(Some(action))
}

/// Adds the action of a statement in a block, if it is an action.
fn add_action(
    alloc: Global,
    schema: &Schema,
    messages: &MessageTable<'_>,
    context: Context<'_>,
    statement: &Statement,
    actions: &mut Vec<Action>,
) -> Result<(), AllocError>
    requires { IsTableOf schema.now messages.now }
    ensures { OnOk result (map plain_action actions.new.items
        ≡ map plain_action actions.old.items ++ listed (script_of.action_of schema.now (standing_in context.entry) statement.now)) }
{
    let message = messages.message_of(statement);
    let types = types_of(context, statement, message).unwrap_or(&[]);
    if let Some(action) = action_of(alloc, schema, types, statement, message)? {
        actions.push(action)?;
    }
    Ok(())
}

/// Returns the actions of a block whose first line is just before these.
fn actions_in(
    alloc: Global,
    schema: &Schema,
    messages: &MessageTable<'_>,
    context: Context<'_>,
    lines: &[LineReading],
) -> Result<Actions, AllocError>
    requires { IsTableOf schema.now messages.now }
    ensures { IfOk result (λ actions. map plain_action actions
        ≡ filter_map (script_of.action_of schema.now (standing_in context.entry)) (script_of.inside lines.now)) }
{
    let mut actions = Vec::new(alloc);
    for line in lines {
        if let Some(statement) = said(line) {
            if closes(statement) {
                return Ok(Items::from_vec(actions));
            }
            add_action(alloc, schema, messages, context, statement, &mut actions)?;
        }
    }
    Ok(Items::from_vec(actions))
}

/// Returns the values that a statement returns, if it is a `return`.
fn returned(statement: &Statement) -> Option<&WrittenValues>
    ensures { option_map (λ vs. vs.now) result ≡ returned_by statement.now }
{
    match statement {
        Statement::Return(values) => Some(values),
        _ => None,
    }
}

/// Returns the values that a block returns, where its first line is just before these.
fn reply_in(
    alloc: Global,
    schema: &Schema,
    context: Context<'_>,
    lines: &[LineReading],
) -> Result<Option<Terms>, AllocError>
    ensures { IfOk result (λ reply. option_map plain_terms reply
        ≡ script_of.first_of (filter_map (script_of.reply_of schema.now (standing_in context.entry)) (script_of.inside lines.now))) }
{
    for line in lines {
        if let Some(statement) = said(line) {
            if closes(statement) {
                return Ok(None);
            }
            if let Some(values) = returned(statement) {
                let types = replies_in(context).unwrap_or(&[]);
                return Ok(Some(terms_of(values, alloc, schema, types)?));
            }
        }
    }
    Ok(None)
}

/// Returns the block whose first line is just before these.
fn block_of(
    alloc: Global,
    schema: &Schema,
    messages: &MessageTable<'_>,
    context: Context<'_>,
    lines: &[LineReading],
) -> Result<Block, AllocError>
    requires { IsTableOf schema.now messages.now }
    ensures { IfOk result (λ b. plain_block b ≡ script_of.block_of schema.now (standing_in context.entry) (script_of.inside lines.now)) }
{
    let actions = actions_in(alloc, schema, messages, context, lines)?;
    let reply = reply_in(alloc, schema, context, lines)?;
    Ok(Block {
        side: side_of(context),
        handles: handled_in(context).map(|message| message.number),
        actions,
        reply,
    })
}

/// Adds the block that a line opens, if it opens one. `rest` has the lines after it.
fn add_block(
    alloc: Global,
    schema: &Schema,
    messages: &MessageTable<'_>,
    line: &LineReading,
    rest: &[LineReading],
    blocks: &mut Vec<Block>,
) -> Result<(), AllocError>
    requires { IsTableOf schema.now messages.now }
    ensures { OnOk result (map plain_block blocks.new.items ≡ map plain_block blocks.old.items ++ blocks_of_line schema.now line.now rest.now) }
{
    if let Some(statement) = said(line) {
        if opens(statement) {
            if let Some(context) = context_of(statement, messages.message_of(statement)) {
                blocks.push(block_of(alloc, schema, messages, context, rest)?)?;
            }
        }
    }
    Ok(())
}

/// Returns the blocks of lines, in their order.
pub fn blocks_of(
    alloc: Global,
    schema: &Schema,
    messages: &MessageTable<'_>,
    readings: &[LineReading],
) -> Result<Blocks, AllocError>
    requires { IsTableOf schema.now messages.now }
    ensures { IfOk result (λ bs. map plain_block bs ≡ script_of.blocks_of schema.now readings.now) }
{
    let mut blocks = Vec::new(alloc);
    for (i, line) in readings.iter().enumerate() {
        let rest = lines_after(readings, i);
        add_block(alloc, schema, messages, line, rest, &mut blocks)?;
    }
    Ok(Items::from_vec(blocks))
}

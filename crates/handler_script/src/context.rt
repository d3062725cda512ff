//! The block in which a line is tested.

ghost use Rattle.std.specs.Prelude.{◌≡◌, option_map};
ghost use Rattle.handler_script.specs.Blocks as blocks;
ghost use Rattle.handler_script.specs.Broken as broken;
ghost use Rattle.handler_script.specs.Contexts.{standing_in};

use crate::messages::receives;
use ipdl_base::{MessageRow, ParamRow, Side};
use script_reader::Statement;

/// The block in which a line is tested.
#[derive(Clone, Copy)]
pub enum Context<'a> {
    /// The main of a side.
    Main(Side),
    /// A handler of a message at a side.
    Handler(Side, &'a MessageRow),
}

/// Returns the block that a statement opens, if any, where `message` is the message that it names.
pub fn context_of<'a>(statement: &Statement, message: Option<&'a MessageRow>) -> Option<Context<'a>>
    ensures { option_map standing_in result ≡ blocks.standing_by (option_map (λ m. m.now) message.entry) statement.now }
{
    match statement {
        Statement::Main(side) => Some(Context::Main(*side)),
        Statement::On(side, _) => Some(Context::Handler(*side, message?)),
        _ => None,
    }
}

/// Returns the side of a block.
pub fn side_of(context: Context<'_>) -> Side
    ensures { result ≡ blocks.side_of (standing_in context.entry) }
{
    match context {
        Context::Main(side) => side,
        Context::Handler(side, _) => side,
    }
}

/// Returns the parameters of the handled message; a main has no parameters.
pub fn given_in<'a>(context: Context<'a>) -> &'a [ParamRow]
    ensures { result.now ≡ blocks.given_in (standing_in context.entry) }
{
    match context {
        Context::Main(_) => &[],
        Context::Handler(_, message) => message.params.as_slice(),
    }
}

/// Returns the handled message, or `None` in a main.
pub fn handled_in<'a>(context: Context<'a>) -> Option<&'a MessageRow>
    ensures { option_map (λ m. m.now) result ≡ blocks.handled_in (standing_in context.entry) }
{
    match context {
        Context::Main(_) => None,
        Context::Handler(_, message) => Some(message),
    }
}

/// Returns whether the side cannot receive the message whose block is opened.
pub fn is_misdirected(opened: Option<Context<'_>>) -> bool
    ensures { result ≡ broken.is_misdirected (option_map standing_in opened.entry) }
{
    matches!(opened, Some(Context::Handler(side, message)) if !receives(side, message.direction))
}

/// Returns whether no channel carries the message whose block is opened.
pub fn is_uncarried(opened: Option<Context<'_>>) -> bool
    ensures { result ≡ broken.is_uncarried (option_map standing_in opened.entry) }
{
    matches!(opened, Some(Context::Handler(_, message)) if !message.carried)
}

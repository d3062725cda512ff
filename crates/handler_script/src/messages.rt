//! Which side sends and receives a message, and the types of its answers.

ghost use Rattle.std.specs.Prelude.{◌≡◌, option_map};
ghost use Rattle.handler_script.specs.Messages as messages;

use ipdl_base::{Direction, Kind, MessageRow, ParamRow, Semantics, Side};

/// Returns whether the side receives messages of this direction.
pub fn receives(side: Side, direction: Direction) -> bool
    ensures { result ≡ messages.receives side direction }
{
    match (side, direction) {
        (Side::Parent, Direction::Child) | (Side::Child, Direction::Parent) => false,
        _ => true,
    }
}

/// Returns the types of the values that resolve an async message with returns, or `None` for any other
/// message.
pub fn resolves(message: &MessageRow) -> Option<&[ParamRow]>
    ensures { option_map (λ ps. ps.now) result ≡ messages.resolves message.now }
{
    match (message.semantics, &message.returns) {
        (Semantics::Async, Some(returns)) => Some(returns.as_slice()),
        _ => None,
    }
}

/// Returns the types of the values that a sync message with returns gives back, or `None` for any other
/// message.
pub fn replies(message: &MessageRow) -> Option<&[ParamRow]>
    ensures { option_map (λ ps. ps.now) result ≡ messages.replies message.now }
{
    match (message.semantics, &message.returns) {
        (Semantics::Sync, Some(returns)) => Some(returns.as_slice()),
        _ => None,
    }
}

/// Returns whether a message makes an actor.
pub fn is_constructor(kind: Kind) -> bool
    ensures { result ≡ messages.is_constructor kind }
{
    matches!(kind, Kind::Constructor(_))
}

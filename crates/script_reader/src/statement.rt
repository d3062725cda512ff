//! Statements.

use crate::written::{Who, WrittenValues};
use ipdl_base::{Name, Side};

/// A message, by the short name of its protocol and its own name, as `P.M`.
#[derive(Drop)]
pub struct MessageName {
    /// The short name of the protocol.
    pub protocol: Name,
    pub message: Name,
}

/// A message with values, as `P.M(VALUES)`.
#[derive(Drop)]
pub struct WrittenMessage {
    pub message: MessageName,
    /// The values.
    pub values: WrittenValues,
}

/// The statement of a line of a script.
#[derive(Drop)]
pub enum Statement {
    /// `SIDE main`: opens the block of what the side does on its own.
    Main(Side),
    /// `SIDE on P.M`: opens a block of what the side does when it handles the message.
    On(Side, MessageName),
    /// `end`: closes the block.
    End,
    /// `send WHO P.M(VALUES)`: sends a message.
    Send(Who, WrittenMessage),
    /// `new NAME WHO P.M(VALUES)`: sends a constructor, and names the new actor.
    New(Name, Who, WrittenMessage),
    /// `let NAME WHO`: names an actor.
    Let(Name, Who),
    /// `resolve (VALUES)`: answers the handled message.
    Resolve(WrittenValues),
    /// `reject`: rejects the handled message.
    Reject,
    /// `keep NAME`: keeps the resolver of the handled message under a name.
    Keep(Name),
    /// `resolve NAME P.M (VALUES)`: answers with a resolver that was kept.
    ResolveKept(Name, WrittenMessage),
    /// `reject NAME P.M`: rejects with a resolver that was kept.
    RejectKept(Name, MessageName),
    /// `close`: closes the end.
    Close,
    /// `die`: kills the end.
    Die,
    /// `return (VALUES)`: gives the values of a sync message.
    Return(WrittenValues),
}

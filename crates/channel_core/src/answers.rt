//! What the calls of an end return.
use crate::resolver::Resolver;
use ipdl_base::{SendRefusal, Values};

/// The result of a send.
#[derive(Drop)]
pub enum SendAnswer {
    /// The request was sent, with this number; `made` is the id of the actor that it makes, or 0.
    Sent { seq: i32, made: i32 },
    /// The request was not sent, for the first cause that holds.
    Refused(SendRefusal),
    /// Nothing changed.
    NoMemory,
}

/// The result of an answer to a handled request.
#[derive(Drop)]
pub enum ResolveAnswer {
    Sent,
    /// The answer was not sent, for the first cause that holds. Returns the resolver.
    Refused(SendRefusal, Resolver),
    /// Nothing changed. Returns the resolver.
    NoMemory(Resolver),
}

/// The result of keeping a resolver.
#[derive(Drop)]
pub enum KeepAnswer {
    Kept,
    /// Nothing changed. Returns the resolver.
    NoMemory(Resolver),
}

/// The result of an answer by a name.
#[derive(Drop)]
pub enum NamedAnswer {
    Sent,
    /// The answer was not sent, for the first cause that holds.
    Refused(SendRefusal),
    /// Nothing changed.
    NoMemory,
}

/// The result of a delivery. Only `Done` changes the end.
#[derive(Drop)]
pub enum DeliverAnswer {
    Done,
    NoMemory,
    /// The bytes break the rule of this number (docs/frames.md) at this offset.
    Bad(usize, u8),
    /// The packet is a reply of this number that nothing waits for.
    Stray(i32),
    /// The actor of this id lives with another protocol; the number is the message's.
    WrongActor(i32, u32),
}

/// A request that is handled.
#[derive(Drop)]
pub struct Handling {
    /// The id of the actor that the request went to.
    pub route: i32,
    /// The number of the request's message.
    pub number: u32,
    /// The number of the request.
    pub seq: i32,
    /// The id of the actor that the request made, or 0.
    pub made: i32,
    /// The values of the request, with null for the dead actors of nullable types.
    pub values: Values,
    /// The right to answer the request, if its message is async with returns.
    pub resolver: Option<Resolver>,
}

/// The result of a take, which is what was taken.
#[derive(Drop)]
pub enum TakeAnswer {
    /// A request, which is handled now.
    Handle(Handling),
    /// A request, which was dropped for a dead actor.
    Dropped,
    /// The reply to a promise, late or not.
    Settled,
    /// A goodbye or a mark; the end is closed now.
    Shut,
    /// Nothing can be taken, and nothing changed.
    Nothing,
    /// Nothing changed.
    NoMemory,
}

/// The result of a return.
#[derive(Drop)]
pub enum FinishAnswer {
    Done,
    /// Nothing changed. Returns the resolver.
    NoMemory(Option<Resolver>),
}

/// The result of a close.
#[derive(Drop)]
pub enum CloseAnswer {
    Done,
    /// The end did not close, for the first cause that holds.
    Refused(SendRefusal),
    /// The close would be refused, and there is no room for the line of the refusal. Nothing
    /// changed.
    NoMemory,
}

/// The frame on top of an end's stack.
#[derive(Clone, Copy, Debug, PartialEq, Eq)]
pub enum Top {
    Empty,
    /// A handler runs.
    Dispatch,
    /// A call waits for its reply.
    Unanswered,
    /// A call has its reply, and may resume.
    Answered,
}

/// A handler that runs, on top of its end's stack.
#[derive(Clone, Copy, Debug, PartialEq, Eq)]
pub struct RunningHandler {
    /// The number of its request.
    pub seq: i32,
    /// The id of the actor that the request went to.
    pub route: i32,
    /// The number of the request's message.
    pub number: u32,
    /// Whether its resolver is still there, neither used nor kept.
    pub has_resolver: bool,
}

//! The lines of a history.
ghost use Rattle.std.specs.Prelude.{◌≡◌};
ghost use Rattle.ipdl_base.specs.Lines.{is_effect};

use crate::kinds::{Destroy, Reason, SendRefusal, Side};
use crate::name::Name;
use crate::value::Values;

/// A line of a history: what happened at one end (docs/transcripts.md).
#[derive(Drop)]
pub struct Line {
    /// The end at which it happened.
    pub side: Side,
    /// What happened.
    pub what: What,
}

/// What a line reports. A message is given by the number of its request, and a protocol by its own number. Requests are
/// numbered from 1 at the parent and from -1 downward at the child.
#[derive(Drop)]
pub enum What {
    /// An async send: its number, the actor that it goes to, its message and its values.
    Send(i32, i32, u32, Values),
    /// A sync send: its number, its transaction, the actor that it goes to, its message and its
    /// values.
    Call(i32, i32, i32, u32, Values),
    /// A refused send of a message.
    RefusedSend(SendRefusal, u32),
    /// A refused close.
    RefusedClose(SendRefusal),
    /// A refused resolve.
    RefusedResolve(SendRefusal),
    /// A refused reject.
    RefusedReject(SendRefusal),
    /// An answer with values to the request of this number.
    Resolve(i32, Values),
    /// A rejection of the request of this number.
    Reject(i32),
    /// The resolver of the request of this number is kept under a name.
    Keep(i32, Name),
    /// A name is bound to the actor of this id, or to nothing if the id is 0.
    Let(Name, i32),
    /// The end closes.
    Close,
    /// The end dies.
    Die,
    /// The request of this number is delivered.
    DeliverRequest(i32),
    /// The reply to the request of this number is delivered.
    DeliverReply(i32),
    /// The other end's goodbye is delivered.
    DeliverGoodbye,
    /// The mark of the other end's death is delivered.
    DeliverBroken,
    /// A request is handled: its number, its actor, its message and its values.
    Take(i32, i32, u32, Values),
    /// A request is dropped: its number, its actor, its message and the id that does not live.
    Drop(i32, i32, u32, i32),
    /// The reply to the request of this number is taken.
    TakeReply(i32),
    /// The end closes by the other's goodbye.
    ShutNormal,
    /// The end closes by the other's death.
    ShutAbnormal,
    /// The handler of the request of this number returns.
    Return(i32),
    /// The call of this number continues with these values.
    ResumeOk(i32, Values),
    /// The call of this number continues with a fault.
    ResumeFault(i32, Reason),
    /// This number of packets leaves the outbox.
    Flush(u32),
    /// An effect: an actor of this id and protocol is built.
    Built(i32, u32),
    /// An effect: the request of this number is replaced by a later one.
    Replaced(i32),
    /// An effect: the request of this number is answered with values.
    AnswerOk(i32, Values),
    /// An effect: the request of this number is answered with a fault.
    AnswerFault(i32, Reason),
    /// An effect: the call of this number is answered by the closing of the channel.
    Fails(i32),
    /// An effect: the promise of this number is settled with values.
    Resolved(i32, Values),
    /// An effect: the promise of this number is settled with a rejection.
    Rejected(i32, Reason),
    /// An effect: the actor of this id falls.
    Fall(i32, Destroy),
}

/// Returns whether a line is an effect of the event before it.
pub fn is_effect(what: &What) -> bool
    ensures { result ≡ is_effect what.now }
{
    matches!(
        what,
        What::Built(..)
            | What::Replaced(..)
            | What::AnswerOk(..)
            | What::AnswerFault(..)
            | What::Fails(..)
            | What::Resolved(..)
            | What::Rejected(..)
            | What::Fall(..)
    )
}

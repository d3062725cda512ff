//! Messages.
ghost use Rattle.std.specs.Prelude.{◌≡◌, ◌↔◌, IfOk, IsTrue};
ghost use Rattle.ipdl_base.specs.Plain.{plain_body, plain_message};

use crate::kinds::Reason;
use crate::value::Values;
use std::alloc::{AllocError, Global};

/// A message that one end sends to the other. The mark that an end has died is not a message.
#[derive(Debug, Drop)]
pub struct Message {
    /// The id of the actor to which the message is sent.
    pub route: i32,
    /// The number of its type: that of a request or a reply in the schema.
    pub number: u32,
    /// The number of the request, positive from the parent and negative from the child.
    pub seq: i32,
    /// The transaction of a sync message, or 0.
    pub transaction: i32,
    /// The id of the actor that a constructor makes, or 0.
    pub made: i32,
    /// What the message carries.
    pub body: Body,
}

/// What a message carries.
#[derive(Debug, Drop)]
pub enum Body {
    /// A request with its parameters.
    Request(Values),
    /// A reply with its returns.
    Reply(Values),
    /// A reply that reports why the request failed.
    Fault(Reason),
    /// The last message of an end that closes.
    Goodbye,
}

impl Message {
    /// Returns a copy, which is the same up to where its boxes lie. Fails only if memory runs out.
    pub fn copy(&self, alloc: Global) -> Result<Message, AllocError>
        ensures { IfOk result (λ copied. plain_message copied ≡ plain_message self.now) }
    {
        Ok(Message {
            route: self.route,
            number: self.number,
            seq: self.seq,
            transaction: self.transaction,
            made: self.made,
            body: self.body.copy(alloc)?,
        })
    }

    /// Returns whether both are the same message, up to where their boxes lie.
    pub fn same(&self, other: &Message) -> bool
        ensures { IsTrue result ↔ (plain_message self.now ≡ plain_message other.now) }
    {
        self.route == other.route
            && self.number == other.number
            && self.seq == other.seq
            && self.transaction == other.transaction
            && self.made == other.made
            && self.body.same(&other.body)
    }
}

impl Body {
    /// Returns a copy, which is the same up to where its boxes lie. Fails only if memory runs out.
    pub fn copy(&self, alloc: Global) -> Result<Body, AllocError>
        ensures { IfOk result (λ copied. plain_body copied ≡ plain_body self.now) }
    {
        match self {
            Body::Request(parameters) => Ok(Body::Request(parameters.copy(alloc)?)),
            Body::Reply(returns) => Ok(Body::Reply(returns.copy(alloc)?)),
            Body::Fault(reason) => Ok(Body::Fault(*reason)),
            Body::Goodbye => Ok(Body::Goodbye),
        }
    }

    /// Returns whether both are the same body, up to where their boxes lie.
    pub fn same(&self, other: &Body) -> bool
        ensures { IsTrue result ↔ (plain_body self.now ≡ plain_body other.now) }
    {
        match (self, other) {
            (Body::Request(a), Body::Request(b)) => a.same(b),
            (Body::Reply(a), Body::Reply(b)) => a.same(b),
            (Body::Fault(a), Body::Fault(b)) => *a == *b,
            (Body::Goodbye, Body::Goodbye) => true,
            _ => false,
        }
    }
}

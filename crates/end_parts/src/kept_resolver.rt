//! The right to answer an async request, as a name keeps it.
ghost use Rattle.std.specs.Prelude.{◌≡◌};
ghost use Rattle.channel_model.specs.Outputs.{resolver_answered};
ghost use Rattle.end_parts.specs.Replies.{answered_of};

use crate::reply::{AnsweredRequest, RequestKey};
use std::marker::Model;

/// The right to answer an async request. A take gives it. Contracts see the number of the request,
/// the id of its actor and the number of its message.
#[derive(Drop)]
pub struct KeptResolver {
    seq: i32,
    route: i32,
    number: u32,
}

impl Model for KeptResolver {
    ghost use Rattle.channel_model.specs.Ends as ends;

    ghost Value = { ends.Resolver };

    ghost view = { λ r. record { seq = r.seq; route = r.route; number = r.number } };
}

impl KeptResolver {
    /// Returns the resolver of a request.
    pub fn new(seq: i32, route: i32, number: u32) -> KeptResolver
        ensures { result ≡ record { seq = seq; route = route; number = number } }
    {
        KeptResolver { seq, route, number }
    }

    /// Returns the number of the request.
    pub fn seq(&self) -> i32
        ensures { result ≡ self.now.seq }
    {
        self.seq
    }

    /// Returns the id of the actor that the request went to.
    pub fn route(&self) -> i32
        ensures { result ≡ self.now.route }
    {
        self.route
    }

    /// Returns the number of the request's message.
    pub fn number(&self) -> u32
        ensures { result ≡ self.now.number }
    {
        self.number
    }

    /// Returns what a reply to the request shows of it.
    pub fn key(&self) -> RequestKey
        ensures { result ≡ record { seq = self.now.seq; route = self.now.route; number = self.now.number } }
    {
        RequestKey {
            seq: self.seq,
            route: self.route,
            number: self.number,
        }
    }

    /// Returns what the answer by this resolver repeats.
    pub fn answered(&self) -> AnsweredRequest
        ensures { answered_of result ≡ resolver_answered self.now }
    {
        AnsweredRequest {
            seq: self.seq,
            route: self.route,
            number: self.number,
            transaction: 0,
        }
    }
}

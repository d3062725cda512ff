//! The right to answer an async request, as the owner of an end has it.
ghost use Rattle.std.specs.Prelude.{◌≡◌};
ghost use Rattle.channel_model.specs.Outputs.{resolver_answered};
ghost use Rattle.end_parts.specs.Replies.{answered_of};

use end_parts::{AnsweredRequest, KeptResolver, RequestKey};
use std::marker::Model;

/// The right to answer an async request. Only `End::take` gives it. Contracts see the number of the
/// request, the id of its actor and the number of its message.
#[derive(Drop)]
pub struct Resolver {
    kept: KeptResolver,
}

impl Model for Resolver {
    ghost use Rattle.channel_model.specs.Ends as model;

    ghost Value = { model.Resolver };

    ghost view = { λ r. r.kept };
}

impl Resolver {
    /// Returns the number of the request.
    pub fn seq(&self) -> i32
        ensures { result ≡ self.now.seq }
    {
        self.kept.seq()
    }

    /// Returns the id of the actor that the request went to.
    pub fn route(&self) -> i32
        ensures { result ≡ self.now.route }
    {
        self.kept.route()
    }

    /// Returns the number of the request's message.
    pub fn number(&self) -> u32
        ensures { result ≡ self.now.number }
    {
        self.kept.number()
    }

    /// Returns the resolver of a request.
    pub(crate) fn of_request(seq: i32, route: i32, number: u32) -> Resolver
        ensures { result ≡ record { seq = seq; route = route; number = number } }
    {
        Resolver {
            kept: KeptResolver::new(seq, route, number),
        }
    }

    /// Returns what a reply to the request shows of it.
    pub(crate) fn key(&self) -> RequestKey
        ensures { result ≡ record { seq = self.now.seq; route = self.now.route; number = self.now.number } }
    {
        self.kept.key()
    }

    /// Returns what the answer by this resolver repeats.
    pub(crate) fn answered(&self) -> AnsweredRequest
        ensures { answered_of result ≡ resolver_answered self.now }
    {
        self.kept.answered()
    }

    /// Returns the resolver as a name keeps it.
    pub(crate) fn into_kept(self) -> KeptResolver
        ensures { result ≡ self }
    {
        let Resolver { kept } = self;
        kept
    }
}

//! The promises of an end, with the messages of their requests.
ghost use Rattle.std.specs.Prelude.{◌≡◌, ◌≢◌, ◌<◌, [], ◌∷◌, ◌++◌, map, None, IfOk, OnOk, OnErr};
ghost use Rattle.std.specs.List.{AllByRecursion};
ghost use Rattle.std.specs.Ordering.{int_eq};
ghost use Rattle.indexmap.specs.IndexMap.{get, spare};
ghost use Rattle.promise_table.specs.Promises.{is_pending, is_pending_of, made};
ghost use Rattle.promise_table.specs.Plain.{plain_outcome};
ghost use Rattle.channel_model.specs.Takes.{is_awaited, settled_entry};
ghost use Rattle.end_parts.specs.Replies.{is_promised_in};
ghost use Rattle.end_parts.specs.PromiseRequests.{is_now, oldest_of, with_oldest_rejected};

use crate::reply::{RequestKey, is_replied_to};
use indexmap::IndexMap;
use ipdl_base::{Message, Reason};
use promise_table::{Outcome, Promises, Settling};
use std::alloc::{AllocError, Global};
use std::marker::Model;

/// The promises of an end, with the messages of their requests. Contracts see the entries, oldest
/// first, with their boxes at one place. Only `new` and `make` take memory.
#[derive(Drop)]
pub struct PromiseEntries {
    promises: Promises,
    /// The request of each by its number, in the same order.
    requests: IndexMap<i32, RequestKey>,
}

impl Model for PromiseEntries {
    ghost use Rattle.std.specs.Prelude.{List};
    ghost use Rattle.channel_model.specs.Ends.{PromiseEntry};
    ghost use Rattle.end_parts.specs.PromiseRequests.{entries_of, AreRequestsOf, AreByNumber};
    ghost use Rattle.std.specs.Map.{values_of};
    ghost use Rattle.promise_table.specs.Promises.{HaveDistinctNumbers};
    ghost use Rattle.ipdl_base.specs.contracts.value.Values as values;
    ghost use Rattle.std.specs.Coded.{codes};

    ghost Value = { List PromiseEntry };

    ghost coded = { Prim.hlevel (codes, values.the_row.coded) };

    ghost view = { λ a. entries_of a.promises (values_of a.requests.entries) };

    ghost invariant = { λ a. AreRequestsOf a.promises (values_of a.requests.entries) × HaveDistinctNumbers a.promises × AreByNumber a.requests.entries };
}

impl PromiseEntries {
    /// Returns a list without promises.
    pub fn new(alloc: Global) -> Result<PromiseEntries, AllocError>
        ensures { IfOk result (λ entries. entries ≡ []) }
    {
        Ok(PromiseEntries {
            promises: Promises::new(alloc)?,
            requests: IndexMap::new(alloc),
        })
    }

    /// Appends a pending promise of a number that no promise has, for a request of this message. If
    /// memory runs out, nothing changes.
    pub fn make(&mut self, seq: i32, actor: i32, number: u32) -> Result<(), AllocError>
        requires { AllByRecursion (λ e. e.promise.seq ≢ seq) self.old }
        ensures ok { OnOk result (self.new ≡ self.old ++ record { promise = made seq actor; number = number } ∷ []) }
        ensures err { OnErr result (self.new ≡ self.old) }
    {
        self.requests.reserve(1)?;
        self.promises.make(seq, actor)?;
        put_request(
            &mut self.requests,
            RequestKey {
                seq,
                route: actor,
                number,
            },
        );
        Ok(())
    }

    /// Rejects the oldest pending promise and returns its number, or `None` if no promise is
    /// pending.
    pub fn reject_next(&mut self, reason: Reason) -> Option<i32>
        ensures oldest { result ≡ oldest_of is_pending self.old }
        ensures rejected { self.new ≡ with_oldest_rejected is_pending reason self.old }
    {
        self.promises.reject_all(reason)
    }

    /// Rejects the oldest pending promise of an actor and returns its number, or `None` if the
    /// actor has none.
    pub fn reject_next_of(&mut self, actor: i32, reason: Reason) -> Option<i32>
        ensures oldest { result ≡ oldest_of (is_pending_of actor) self.old }
        ensures rejected { self.new ≡ with_oldest_rejected (is_pending_of actor) reason self.old }
    {
        self.promises.reject_of(actor, reason)
    }

    /// Settles the promise of a number if it is pending, and reports whether it did.
    pub fn settle(&mut self, seq: i32, outcome: Outcome) -> bool
        ensures awaited { result ≡ is_awaited seq self.old }
        ensures settled { self.new ≡ map (settled_entry seq (plain_outcome outcome)) self.old }
    {
        is_now(self.promises.settle(seq, outcome))
    }

    /// Whether a promise, settled or not, was made for the reply.
    pub fn is_promised(&self, reply: &Message) -> bool
        ensures { result ≡ is_promised_in self.now reply.now }
    {
        match self.requests.get(&reply.seq) {
            None => false,
            Some(request) => is_replied_to(reply, request),
        }
    }
}

// Whether a promise was pending until it was settled.
fn is_now(settling: Settling) -> bool
    ensures { result ≡ is_now settling }
{
    match settling {
        Settling::Now => true,
        Settling::Already | Settling::Unknown => false,
    }
}

// Appends a request of a number that none has, where there is room.
fn put_request(requests: &mut IndexMap<i32, RequestKey>, request: RequestKey)
    requires room { 0 < spare requests.old }
    requires free { get int_eq requests.old request.seq ≡ None }
    ensures { requests.new.entries ≡ requests.old.entries ++ (request.seq, request) ∷ [] }
{
    match requests.insert(request.seq, request) {
        Ok(_) => {}
        Err(_) => unreachable!(),
    }
}

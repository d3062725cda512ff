//! The nodes of the promises, and the lists that the pending ones are on.
ghost use Rattle.std.specs.Prelude.{◌≡◌, ◌≢◌, ℕ, option_map, ◌<◌, ℤ, None, Some, IsSome, [], ◌∷◌, ◌++◌, if◌then◌else◌, IfOk, OnOk, OnErr};
ghost use Rattle.std.specs.Ordering.{int_eq};
ghost use Rattle.slab.specs.Slab.{get as slab_get};
ghost use Rattle.indexmap.specs.IndexMap.{get, spare};
ghost use Rattle.promise_table.specs.Promises.{made, is_pending, is_pending_of, settling_of, promise_of, with_settled, oldest, with_rejected};
ghost use Rattle.linked_lists.specs.Chosen.{passes};

use crate::node::{Chain, Node};
use crate::promise::{Outcome, Promise, Settling};
use indexmap::IndexMap;
use ipdl_base::Reason;
use linked_lists::{Ends, KeyStep, Keys, NodeLink, attach, detach};
use slab::Slab;
use std::alloc::{AllocError, Global};

/// The nodes of the promises, the key of each by its number, and the ends of the lists of pending
/// promises.
#[derive(Drop)]
pub(crate) struct Table {
    pub(crate) nodes: Slab<Node>,
    pub(crate) ids: IndexMap<i32, usize>,
    pub(crate) pending: Ends,
    pub(crate) actors: IndexMap<i32, Ends>,
    pub(crate) keys: Keys,
}

impl Table {
    ghost use Rattle.promise_table.specs.Table.{own_at, node_at, own_of, id_of, keys_of, promises_in, promise_at, links_of, with_outcome, outcome_set, seq_of, IsPendingAt, IsTable};

    // Returns the ends of the list of an actor.
    fn own(actors: &IndexMap<i32, Ends>, actor: &i32) -> Ends
        ensures { result ≡ own_at actors.now actor.now }
    {
        match actors.get(actor) {
            Some(ends) => *ends,
            None => Ends::none(),
        }
    }

    // Stores the ends of the list of an actor, for which there is room.
    fn put_own(actors: &mut IndexMap<i32, Ends>, actor: i32, ends: Ends)
        requires { 0 < spare actors.old }
        ensures { (a : ℤ) → own_at actors.new a ≡ (if int_eq actor a then ends else own_at actors.old a) }
    {
        if actors.insert(actor, ends).is_err() {
            unreachable!();
        }
    }

    // Stores the ends of the list of an actor that has a list.
    fn set_own(actors: &mut IndexMap<i32, Ends>, actor: &i32, ends: Ends)
        requires { IsSome (get int_eq actors.old actor.now) }
        ensures { (a : ℤ) → own_at actors.new a ≡ (if int_eq actor.now a then ends else own_at actors.old a) }
    {
        if let Some(old) = actors.get_mut(actor) {
            *old = ends;
        }
    }

    pub(crate) fn new(alloc: Global) -> Table
        ensures table { IsTable result }
        ensures promises { promises_in result ≡ [] }
    {
        Table {
            nodes: Slab::new(alloc),
            ids: IndexMap::new(alloc),
            pending: Ends::none(),
            actors: IndexMap::new(alloc),
            keys: Keys::new(),
        }
    }

    /// Appends a pending promise of a number that no promise has.
    pub(crate) fn make(&mut self, seq: i32, actor: i32) -> Result<(), AllocError>
        requires table { IsTable self.old }
        requires unmade { id_of self.old seq ≡ None }
        ensures table { IsTable self.new }
        ensures ok { OnOk result (promises_in self.new ≡ promises_in self.old ++ made seq actor ∷ []) }
        ensures err { OnErr result (promises_in self.new ≡ promises_in self.old) }
    {
        self.nodes.reserve(1)?;
        self.actors.reserve(1)?;
        let key = self.nodes.vacant_key();
        self.ids.insert(seq, key)?;
        let alone = NodeLink::none();
        self.nodes.insert_reserved(Node {
            promise: Promise {
                seq,
                actor,
                outcome: None,
            },
            all: alone,
            own: alone,
        });
        attach(&mut self.nodes, Chain::All, self.pending.last, key);
        self.pending = self.pending.with(key);
        let ends = Table::own(&self.actors, &actor);
        attach(&mut self.nodes, Chain::Own, ends.last, key);
        Table::put_own(&mut self.actors, actor, ends.with(key));
        self.keys = self.keys.then(&KeyStep::Append(key));
        Ok(())
    }

    // Gives the promise of a key an outcome, and returns its links and its actor.
    fn set_outcome(
        nodes: &mut Slab<Node>,
        key: usize,
        outcome: Outcome,
    ) -> Option<(NodeLink, NodeLink, i32)>
        ensures told { result ≡ option_map links_of (slab_get nodes.old key) }
        ensures changed { slab_get nodes.new key ≡ option_map (with_outcome outcome) (slab_get nodes.old key) }
        ensures others { (k : ℕ) → k ≢ key → slab_get nodes.new k ≡ slab_get nodes.old k }
    {
        let node = nodes.get_mut(key)?;
        let told = (node.all, node.own, node.promise.actor);
        node.promise.outcome = Some(outcome);
        Some(told)
    }

    /// Settles the pending promise of a key.
    pub(crate) fn settle_at(&mut self, key: usize, outcome: Outcome)
        requires table { IsTable self.old }
        requires pending { IsPendingAt self.old key }
        ensures table { IsTable self.new }
        ensures keys { keys_of self.new ≡ keys_of self.old }
        ensures settled { promise_at self.new key ≡ option_map (outcome_set outcome) (promise_at self.old key) }
        ensures others { (k : ℕ) → k ≢ key → promise_at self.new k ≡ promise_at self.old k }
    {
        let Some((all, own, actor)) = Table::set_outcome(&mut self.nodes, key, outcome) else {
            return;
        };
        detach(&mut self.nodes, Chain::All, all);
        self.pending = self.pending.without(all);
        detach(&mut self.nodes, Chain::Own, own);
        let ends = Table::own(&self.actors, &actor);
        Table::set_own(&mut self.actors, &actor, ends.without(own));
    }

    // Whether the promise of a key is pending.
    fn pends(&self, key: usize) -> bool
        ensures { result ≡ passes is_pending (promise_at self.now key) }
    {
        match self.nodes.get(key) {
            Some(node) => node.promise.outcome.is_none(),
            None => false,
        }
    }

    // Returns the number of the promise of a key.
    fn seq_at(&self, key: usize) -> Option<i32>
        ensures { result ≡ option_map seq_of (promise_at self.now key) }
    {
        match self.nodes.get(key) {
            Some(node) => Some(node.promise.seq),
            None => None,
        }
    }

    /// Settles the promise of this number if it is pending, and returns what it found.
    pub(crate) fn settle(&mut self, seq: i32, outcome: Outcome) -> Settling
        requires { IsTable self.old }
        ensures table { IsTable self.new }
        ensures answer { result ≡ settling_of (promise_of (promises_in self.old) seq) }
        ensures settled { promises_in self.new ≡ with_settled (promises_in self.old) seq outcome }
        ensures unchanged { result ≢ Settling.Now → promises_in self.new ≡ promises_in self.old }
    {
        let Some(key) = self.ids.get(&seq).copied() else {
            return Settling::Unknown;
        };
        if !self.pends(key) {
            return Settling::Already;
        }
        self.settle_at(key, outcome);
        Settling::Now
    }

    // Rejects the promise of a key, which is the oldest that passes, and returns its number.
    fn reject(&mut self, key: usize, reason: Reason) -> Option<i32>
        requires table { IsTable self.old }
        requires pending { IsPendingAt self.old key }
        ensures table { IsTable self.new }
        ensures seq { result ≡ option_map seq_of (promise_at self.old key) }
        ensures rejected { promises_in self.new ≡ with_rejected (promises_in self.old) result reason }
    {
        let seq = self.seq_at(key)?;
        self.settle_at(key, Outcome::Rejected(reason));
        Some(seq)
    }

    /// Rejects the oldest pending promise of an actor and returns its number, or `None`.
    pub(crate) fn reject_of(&mut self, actor: i32, reason: Reason) -> Option<i32>
        requires { IsTable self.old }
        ensures table { IsTable self.new }
        ensures oldest { result ≡ oldest (is_pending_of actor) (promises_in self.old) }
        ensures rejected { promises_in self.new ≡ with_rejected (promises_in self.old) result reason }
    {
        let key = Table::own(&self.actors, &actor).first?;
        self.reject(key, reason)
    }

    /// Rejects the oldest pending promise and returns its number, or `None`.
    pub(crate) fn reject_all(&mut self, reason: Reason) -> Option<i32>
        requires { IsTable self.old }
        ensures table { IsTable self.new }
        ensures oldest { result ≡ oldest is_pending (promises_in self.old) }
        ensures rejected { promises_in self.new ≡ with_rejected (promises_in self.old) result reason }
    {
        let key = self.pending.first?;
        self.reject(key, reason)
    }
}

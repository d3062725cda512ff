//! The nodes of the arrived items, and the lists that they are on.
ghost use Rattle.std.specs.Prelude.{◌≡◌, ◌+◌, ◌<◌, ◌≤◌, [], ◌∷◌, ◌++◌, Some, OnOk, OnErr, IfOk, IfErr, IfNone, IsOk, length, find, option_map};
ghost use Rattle.pending_queue.specs.Compression.{are_alike, replaced, staying, pushed_of};
ghost use Rattle.pending_queue.specs.Classes.{likeness_of};
ghost use Rattle.slab.specs.Slab.{get};
ghost use Rattle.linked_lists.specs.Neighbours.{IsIn, head, omit};
ghost use Rattle.linked_lists.specs.Links.{key_eq};
ghost use Rattle.linked_lists.specs.Chosen.{chosen_keys, passes, items_of};
ghost use Rattle.pending_queue.specs.Classes.{is_class};
ghost use Rattle.pending_queue.specs.DeferralContext.{is_free, without_first};
ghost use Rattle.pending_queue.specs.Links.{stamp_of};

use crate::alike::{join_alike, leave_alike};
use crate::class::{Class, Classes, Likeness, class_of, defers_class, likeness_of};
use crate::deferral_context::{DeferralContext, defers};
use crate::item::{Item, PushEffect, PushFault, are_alike};
use crate::node::{Chain, Node};
use indexmap::IndexMap;
use ipdl_base::Compress;
use linked_lists::{Ends, KeyStep, Keys, NodeLink, attach, detach, link_at};
use slab::Slab;
use std::alloc::{AllocError, Global};

/// The nodes of the items, the ends of their lists, and the key of the last request of each type
/// and route.
#[derive(Drop)]
pub(crate) struct Queue {
    pub(crate) nodes: Slab<Node>,
    pub(crate) lasts: IndexMap<Likeness, usize>,
    pub(crate) arrival: Ends,
    pub(crate) classes: Classes,
    // The stamp of the next item.
    pub(crate) stamp: u64,
    // The number of further items that there is room for.
    pub(crate) spare: usize,
    pub(crate) keys: Keys,
}

impl Queue {
    ghost use Rattle.pending_queue.specs.Queue.{node_at, keys_of, queue_item, items_in, IsQueue, earlier_of, last_if, last_of_its_likeness, Replaces};

    /// Returns a queue without items.
    pub(crate) fn new(alloc: Global) -> Queue
        ensures queue { IsQueue result }
        ensures items { items_in result ≡ [] }
        ensures spare { result.spare ≡ 0 }
    {
        Queue {
            nodes: Slab::new(alloc),
            lasts: IndexMap::new(alloc),
            arrival: Ends::none(),
            classes: Classes::none(),
            stamp: 0,
            spare: 0,
            keys: Keys::new(),
        }
    }

    /// Appends an item for which there is room.
    pub(crate) fn put(&mut self, item: Item)
        requires queue { IsQueue self.old }
        requires room { 0 < self.old.spare }
        ensures queue { IsQueue self.new }
        ensures items { items_in self.new ≡ items_in self.old ++ item ∷ [] }
        ensures spare { self.new.spare + 1 ≡ self.old.spare }
    {
        let class = class_of(&item);
        let likeness = likeness_of(&item);
        let alone = NodeLink::none();
        let key = self.nodes.insert_reserved(Node {
            item,
            stamp: self.stamp,
            arrival: alone,
            class: alone,
            alike: alone,
        });
        attach(&mut self.nodes, Chain::Arrival, self.arrival.last, key);
        self.arrival = self.arrival.with(key);
        let ends = self.classes.ends(class);
        attach(&mut self.nodes, Chain::SameClass, ends.last, key);
        self.classes.set(class, ends.with(key));
        join_alike(&mut self.nodes, &mut self.lasts, likeness, key);
        self.stamp += 1;
        self.spare -= 1;
        self.keys = self.keys.then(&KeyStep::Append(key));
    }

    /// Removes and returns the item of a key.
    pub(crate) fn take(&mut self, key: usize) -> Item
        requires queue { IsQueue self.old }
        requires there { IsIn key (keys_of self.old) }
        ensures queue { IsQueue self.new }
        ensures item { queue_item self.old key ≡ Some result }
        ensures items { items_in self.new ≡ items_of (queue_item self.old) (omit key_eq key (keys_of self.old)) }
        ensures spare { self.new.spare ≡ self.old.spare }
    {
        let node = self.nodes.remove(key);
        let class = class_of(&node.item);
        let likeness = likeness_of(&node.item);
        detach(&mut self.nodes, Chain::Arrival, node.arrival);
        self.arrival = self.arrival.without(node.arrival);
        detach(&mut self.nodes, Chain::SameClass, node.class);
        let ends = self.classes.ends(class);
        self.classes.set(class, ends.without(node.class));
        leave_alike(&mut self.nodes, &mut self.lasts, likeness, node.alike);
        self.keys = self.keys.then(&KeyStep::Remove(key));
        node.item
    }

    /// Removes all items.
    pub(crate) fn clear(&mut self)
        requires { IsQueue self.old }
        ensures queue { IsQueue self.new }
        ensures items { items_in self.new ≡ [] }
        ensures spare { self.new.spare ≡ self.old.spare }
    {
        self.nodes.clear();
        self.lasts.clear();
        self.arrival = Ends::none();
        self.classes = Classes::none();
        self.stamp = 0;
        self.keys = Keys::new();
    }

    /// Makes room for `n` more items.
    pub(crate) fn reserve(&mut self, n: usize) -> Result<(), AllocError>
        requires { IsQueue self.old }
        ensures queue { IsQueue self.new }
        ensures items { items_in self.new ≡ items_in self.old }
        ensures ok { OnOk result (n ≤ self.new.spare) }
        ensures spare { self.old.spare ≤ self.new.spare }
        ensures succeeds { n ≤ self.old.spare → IsOk result }
        ensures err { OnErr result (self.new.spare ≡ self.old.spare) }
    {
        if n <= self.spare {
            return Ok(());
        }
        if u64::MAX - self.stamp < n as u64 {
            return Err(AllocError);
        }
        self.nodes.reserve(n)?;
        self.lasts.reserve(n)?;
        self.spare = n;
        Ok(())
    }

    // Whether the item of a key is not deferred.
    fn frees(&self, holding: &DeferralContext, key: usize) -> bool
        ensures { result ≡ passes (is_free holding.now) (queue_item self.now key) }
    {
        match self.nodes.get(key) {
            Some(node) => !defers(holding, &node.item),
            None => false,
        }
    }

    // Returns the oldest item of a class that is not deferred.
    fn candidate(&self, holding: &DeferralContext, class: Class) -> Option<usize>
        requires { IsQueue self.now }
        ensures { result ≡ head (chosen_keys (is_free holding.now) (queue_item self.now)
            (chosen_keys (is_class class) (queue_item self.now) (keys_of self.now))) }
    {
        if defers_class(holding, class) {
            return None;
        }
        let mut at = self.classes.ends(class).first;
        while let Some(key) = at {
            if self.frees(holding, key) {
                return Some(key);
            }
            at = link_at(&self.nodes, Chain::SameClass, key).next;
        }
        None
    }

    fn stamp_at(&self, key: usize) -> u64
        ensures { result ≡ stamp_of (node_at self.now key) }
    {
        match self.nodes.get(key) {
            Some(node) => node.stamp,
            None => 0,
        }
    }

    // Returns the key of the item that arrived earlier.
    fn earlier(&self, a: Option<usize>, b: Option<usize>) -> Option<usize>
        ensures { result ≡ earlier_of (node_at self.now) a b }
    {
        let Some(i) = a else {
            return b;
        };
        let Some(j) = b else {
            return Some(i);
        };
        if self.stamp_at(j) < self.stamp_at(i) {
            Some(j)
        } else {
            Some(i)
        }
    }

    /// Returns the key of the oldest item that is not deferred.
    pub(crate) fn first_free(&self, holding: &DeferralContext) -> Option<usize>
        requires { IsQueue self.now }
        ensures { result ≡ head (chosen_keys (is_free holding.now) (queue_item self.now) (keys_of self.now)) }
    {
        let mark = self.candidate(holding, Class::Closing);
        let cpow = self.earlier(self.candidate(holding, Class::Highest), mark);
        let sync_inside = self.earlier(self.candidate(holding, Class::SyncInside), cpow);
        let sync_not = self.earlier(self.candidate(holding, Class::SyncNot), sync_inside);
        self.earlier(self.candidate(holding, Class::Asynchronous), sync_not)
    }

    // Whether the item of a key is a request of the new one's type and route.
    fn is_alike(&self, new: &Item, key: usize) -> bool
        ensures { result ≡ passes (are_alike new.now) (queue_item self.now key) }
    {
        match self.nodes.get(key) {
            Some(node) => are_alike(new, &node.item),
            None => false,
        }
    }

    // Returns the key of the last item, if it is a request of the new one's type and route.
    fn last_alike(&self, new: &Item) -> Option<usize>
        ensures { result ≡ last_if (are_alike new.now) (queue_item self.now) self.now.arrival.last }
    {
        let key = self.arrival.last?;
        if self.is_alike(new, key) {
            Some(key)
        } else {
            None
        }
    }

    // Returns the key of the latest item that is a request of the new one's type and route.
    fn latest_alike(&self, new: &Item) -> Option<usize>
        ensures { result ≡ last_of_its_likeness self.now (likeness_of new.now) }
    {
        let likeness = likeness_of(new)?;
        self.lasts.get(&likeness).copied()
    }

    /// Returns the key of the item that a new one replaces.
    pub(crate) fn target(&self, new: &Item, compress: Compress) -> Option<usize>
        requires { IsQueue self.now }
        ensures { Replaces self.now compress new.now result }
    {
        match compress {
            Compress::Plain => None,
            Compress::Last => self.last_alike(new),
            Compress::All => self.latest_alike(new),
        }
    }

    /// Appends an item, and removes the one that it replaces.
    pub(crate) fn push(&mut self, item: Item, compress: Compress) -> Result<PushEffect, PushFault>
        requires { IsQueue self.old }
        ensures queue { IsQueue self.new }
        ensures answer { IfOk result (λ pushed. pushed ≡ pushed_of (replaced compress item (items_in self.old))) }
        ensures items { OnOk result (items_in self.new ≡ staying compress item (items_in self.old) ++ item ∷ []) }
        ensures fault { IfErr result (λ fault. fault ≡ PushFault.NoMemory item) }
        ensures unchanged { OnErr result (items_in self.new ≡ items_in self.old) }
        ensures kept { OnErr result (self.new.spare ≡ self.old.spare) }
        ensures room { 0 < self.old.spare → IsOk result }
        ensures spare { self.old.spare ≤ self.new.spare + 1 }
    {
        if self.reserve(1).is_err() {
            return Err(PushFault::NoMemory(item));
        }
        match self.target(&item, compress) {
            None => {
                self.put(item);
                Ok(PushEffect::Added)
            }
            Some(key) => {
                let old = self.take(key);
                self.put(item);
                Ok(PushEffect::Replaced(old))
            }
        }
    }

    /// Returns the item of a key.
    pub(crate) fn item(&self, key: usize) -> Option<&Item>
        ensures { option_map (λ item. item.now) result ≡ queue_item self.now key }
    {
        match self.nodes.get(key) {
            Some(node) => Some(&node.item),
            None => None,
        }
    }

    /// Returns the number of items.
    pub(crate) fn len(&self) -> usize
        requires { IsQueue self.now }
        ensures { result ≡ length (items_in self.now) }
    {
        self.nodes.len()
    }

    /// Removes and returns the oldest item that is not deferred.
    pub(crate) fn take_free(&mut self, holding: &DeferralContext) -> Option<Item>
        requires { IsQueue self.old }
        ensures queue { IsQueue self.new }
        ensures first { result ≡ find (is_free holding.now) (items_in self.old) }
        ensures rest { items_in self.new ≡ without_first (is_free holding.now) (items_in self.old) }
        ensures none { IfNone result (self.new ≡ self.old) }
        ensures spare { self.new.spare ≡ self.old.spare }
    {
        let key = self.first_free(holding)?;
        Some(self.take(key))
    }
}

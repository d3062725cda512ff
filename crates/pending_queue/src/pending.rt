//! The arrived items of one end, as its callers see them.
ghost use Rattle.std.specs.Prelude.{◌≡◌, ◌==◌, ◌+◌, ◌<◌, ◌≤◌, [], ◌∷◌, ◌++◌, find, length, option_map, IfOk, IfErr, OnOk, OnErr, IfNone, IsOk};
ghost use Rattle.pending_queue.specs.Compression.{replaced, staying, pushed_of};
ghost use Rattle.pending_queue.specs.DeferralContext.{is_free, without_first};

use crate::deferral_context::DeferralContext;
use crate::item::{Item, PushEffect, PushFault};
use crate::queue::Queue;
use ipdl_base::Compress;
use std::alloc::{AllocError, Global};
use std::marker::Model;

/// The items that have arrived at an end and were not taken. Contracts see them as a list, oldest
/// first, with the number of further items that there is room for.
#[derive(Drop)]
pub struct Pending {
    queue: Queue,
}

impl Model for Pending {
    ghost use Rattle.pending_queue.specs.ArrivedItems.{ArrivedItems};
    ghost use Rattle.ipdl_base.specs.contracts.value.Values as values;
    ghost use Rattle.std.specs.Coded.{codes};

    ghost Value = { ArrivedItems };

    ghost coded = { Prim.hlevel (codes, values.the_row.coded) };

    ghost use Rattle.pending_queue.specs.Queue.{items_in, IsQueue};

    ghost view = { λ a. record { items = items_in a.queue; spare = a.queue.spare } };

    ghost invariant = { λ a. IsQueue a.queue };
}

impl Pending {
    /// Returns a queue without items, which takes its memory from `alloc`. Fails only if memory
    /// runs out.
    pub fn new(alloc: Global) -> Result<Pending, AllocError>
        ensures { IfOk result (λ pending. pending.items ≡ []) }
    {
        Ok(Pending {
            queue: Queue::new(alloc),
        })
    }

    /// Appends an item. Under `Last` it replaces the last item, and under `All` the latest, if both
    /// are requests of the same type and route (docs/arrived.md). If memory runs out, the item is
    /// returned and nothing changes; that cannot happen if there is room.
    pub fn push(&mut self, item: Item, compress: Compress) -> Result<PushEffect, PushFault>
        ensures answer { IfOk result (λ pushed. pushed ≡ pushed_of (replaced compress item self.old.items)) }
        ensures items { OnOk result (self.new.items ≡ staying compress item self.old.items ++ item ∷ []) }
        ensures fault { IfErr result (λ fault. fault ≡ PushFault.NoMemory item) }
        ensures unchanged { OnErr result (self.new ≡ self.old) }
        ensures room { 0 < self.old.spare → IsOk result }
        ensures spare { self.old.spare ≤ self.new.spare + 1 }
    {
        self.queue.push(item, compress)
    }

    /// Makes room for `n` more items. Fails only if memory runs out, and never leaves less room.
    pub fn reserve(&mut self, n: usize) -> Result<(), AllocError>
        ensures items { self.new.items ≡ self.old.items }
        ensures ok { OnOk result (n ≤ self.new.spare) }
        ensures spare { self.old.spare ≤ self.new.spare }
    {
        self.queue.reserve(n)
    }

    /// Returns the number of items.
    pub fn len(&self) -> usize
        ensures { result ≡ length self.now.items }
    {
        self.queue.len()
    }

    /// Whether there are no items.
    pub fn is_empty(&self) -> bool
        ensures { result ≡ (length self.now.items == 0) }
    {
        self.queue.len() == 0
    }

    /// Returns the item that a push of `item` would replace, or `None`.
    pub fn replaced(&self, item: &Item, compress: Compress) -> Option<&Item>
        ensures { option_map (λ old. old.now) result ≡ replaced compress item.now self.now.items }
    {
        let key = self.queue.target(item, compress)?;
        self.queue.item(key)
    }

    /// Returns the oldest item that is not deferred, which `take_first` would take, or `None`.
    pub fn first(&self, holding: &DeferralContext) -> Option<&Item>
        ensures { option_map (λ item. item.now) result ≡ find (is_free holding.now) self.now.items }
    {
        let key = self.queue.first_free(holding)?;
        self.queue.item(key)
    }

    /// Removes and returns the oldest item that is not deferred (docs/arrived.md), or `None`. Takes
    /// no memory.
    pub fn take_first(&mut self, holding: &DeferralContext) -> Option<Item>
        ensures first { result ≡ find (is_free holding.now) self.old.items }
        ensures rest { self.new.items ≡ without_first (is_free holding.now) self.old.items }
        ensures none { IfNone result (self.new ≡ self.old) }
        ensures spare { self.old.spare ≤ self.new.spare }
    {
        self.queue.take_free(holding)
    }
    /// Removes all items. Takes no memory, and leaves no less room.
    pub fn clear(&mut self)
        ensures items { self.new.items ≡ [] }
        ensures spare { self.old.spare ≤ self.new.spare }
    {
        self.queue.clear();
    }
}

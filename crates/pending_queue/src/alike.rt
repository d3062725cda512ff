//! The list of the requests that are alike. It has no ends of its own: a map has the last request
//! of each likeness.
ghost use Rattle.std.specs.Prelude.{⊤, ◌≡◌, ◌+◌, ◌<◌, ◌≤◌, ℕ, Some, IsSome, MatchOption, if◌then◌else◌};
ghost use Rattle.slab.specs.Slab.{get, slab_len};
ghost use Rattle.indexmap.specs.IndexMap.{spare};
ghost use Rattle.pending_queue.specs.declared.class.Likeness.{Likeness as OfLikeness};
ghost use Rattle.pending_queue.specs.Classes.{likeness_is};
ghost use Rattle.pending_queue.specs.Alike.{last_at, joined, left, last_without};

use crate::class::Likeness;
use crate::node::{Chain, Node};
use indexmap::IndexMap;
use linked_lists::{NodeLink, attach, detach};
use slab::Slab;

/// Makes the node at `key` the last of its likeness.
pub(crate) fn join_alike(
    nodes: &mut Slab<Node>,
    lasts: &mut IndexMap<Likeness, usize>,
    likeness: Option<Likeness>,
    key: usize,
)
    requires { 0 < spare lasts.old }
    ensures nodes { (k : ℕ) → get nodes.new k ≡ joined likeness (last_at lasts.old) key k (get nodes.old k) }
    ensures lasts { (q : OfLikeness) → last_at lasts.new q ≡ (if likeness_is likeness q then Some key else last_at lasts.old q) }
    ensures spare { spare lasts.old ≤ spare lasts.new + 1 }
    ensures capacity { nodes.new.capacity ≡ nodes.old.capacity }
    ensures len { slab_len nodes.new ≡ slab_len nodes.old }
{
    let Some(likeness) = likeness else {
        return;
    };
    let last = lasts.get(&likeness).copied();
    attach(nodes, Chain::Alike, last, key);
    if lasts.insert(likeness, key).is_err() {
        unreachable!();
    }
}

// Stores the key of the last request of a likeness, or removes it.
fn set_last(lasts: &mut IndexMap<Likeness, usize>, likeness: Likeness, previous: Option<usize>)
    requires { IsSome (last_at lasts.old likeness) }
    ensures lasts { (q : OfLikeness) → last_at lasts.new q ≡ (if likeness_is (Some likeness) q then previous else last_at lasts.old q) }
    ensures spare { spare lasts.old ≤ spare lasts.new }
{
    match previous {
        Some(previous) => {
            if let Some(last) = lasts.get_mut(&likeness) {
                *last = previous;
            }
        }
        None => {
            let _ = lasts.swap_remove(&likeness);
        }
    }
}

/// Removes a node, whose link this was, from the list of its likeness.
pub(crate) fn leave_alike(
    nodes: &mut Slab<Node>,
    lasts: &mut IndexMap<Likeness, usize>,
    likeness: Option<Likeness>,
    gone: NodeLink,
)
    requires { MatchOption likeness ⊤ (λ q. IsSome (last_at lasts.old q)) }
    ensures nodes { (k : ℕ) → get nodes.new k ≡ left likeness gone k (get nodes.old k) }
    ensures lasts { (q : OfLikeness) → last_at lasts.new q ≡ (if likeness_is likeness q then last_without gone (last_at lasts.old q) else last_at lasts.old q) }
    ensures spare { spare lasts.old ≤ spare lasts.new }
    ensures capacity { nodes.new.capacity ≡ nodes.old.capacity }
    ensures len { slab_len nodes.new ≡ slab_len nodes.old }
{
    let Some(likeness) = likeness else {
        return;
    };
    detach(nodes, Chain::Alike, gone);
    if gone.next.is_none() {
        set_last(lasts, likeness, gone.previous);
    }
}

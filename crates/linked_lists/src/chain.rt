//! Nodes on linked lists, and the two operations that keep their links.
ghost use Rattle.std.specs.Prelude.{◌≡◌, ℕ, Option};
ghost use Rattle.std.specs.Option.{option_map};
ghost use Rattle.slab.specs.Slab.{get, slab_len};
ghost use Rattle.linked_lists.specs.declared.link.NodeLink.{NodeLink};
ghost use Rattle.linked_lists.specs.Chains.{link_of_some, with_previous, with_next, attached, detached};

use super::link::NodeLink;
use slab::Slab;

/// A node of a slab. It has a link for each of the chains that it may be on.
pub trait LinkedNode {
    /// The chains that a node may be on.
    type Chain: Copy;

    ghost link_of: { Self.Chain → Self → NodeLink };

    ghost with_link: { Self.Chain → NodeLink → Self → Self };

    /// Returns its link on a chain.
    fn link(&self, chain: Self::Chain) -> NodeLink
        ensures { result ≡ link_of chain self.now };

    /// Replaces its link on a chain.
    fn set_link(&mut self, chain: Self::Chain, link: NodeLink)
        ensures { self.new ≡ with_link chain link self.old };

    ghost reads_back: { (chain : Self.Chain) (link : NodeLink) (node : Self) → link_of chain (with_link chain link node) ≡ link };
}

/// Returns the link on a chain of the node at a key, or no link if there is no node.
pub fn link_at<N: LinkedNode>(nodes: &Slab<N>, chain: N::Chain, key: usize) -> NodeLink
    ensures { result ≡ link_of_some (N.link_of chain) (get nodes.now key) }
{
    match nodes.get(key) {
        Some(node) => node.link(chain),
        None => NodeLink::none(),
    }
}

fn set_previous<N: LinkedNode>(
    nodes: &mut Slab<N>,
    chain: N::Chain,
    at: Option<usize>,
    key: Option<usize>,
)
    ensures nodes { (k : ℕ) → get nodes.new k ≡ option_map (with_previous (N.link_of chain) (N.with_link chain) at key k) (get nodes.old k) }
    ensures capacity { nodes.new.capacity ≡ nodes.old.capacity }
    ensures len { slab_len nodes.new ≡ slab_len nodes.old }
{
    let Some(at) = at else {
        return;
    };
    if let Some(node) = nodes.get_mut(at) {
        let link = node.link(chain);
        node.set_link(
            chain,
            NodeLink {
                previous: key,
                next: link.next,
            },
        );
    }
}

fn set_next<N: LinkedNode>(
    nodes: &mut Slab<N>,
    chain: N::Chain,
    at: Option<usize>,
    key: Option<usize>,
)
    ensures nodes { (k : ℕ) → get nodes.new k ≡ option_map (with_next (N.link_of chain) (N.with_link chain) at key k) (get nodes.old k) }
    ensures capacity { nodes.new.capacity ≡ nodes.old.capacity }
    ensures len { slab_len nodes.new ≡ slab_len nodes.old }
{
    let Some(at) = at else {
        return;
    };
    if let Some(node) = nodes.get_mut(at) {
        let link = node.link(chain);
        node.set_link(
            chain,
            NodeLink {
                previous: link.previous,
                next: key,
            },
        );
    }
}

/// Puts the node at `key` on a chain, after the node at `last`, if there is one.
pub fn attach<N: LinkedNode>(nodes: &mut Slab<N>, chain: N::Chain, last: Option<usize>, key: usize)
    ensures nodes { (k : ℕ) → get nodes.new k ≡ option_map (attached (N.link_of chain) (N.with_link chain) last key k) (get nodes.old k) }
    ensures capacity { nodes.new.capacity ≡ nodes.old.capacity }
    ensures len { slab_len nodes.new ≡ slab_len nodes.old }
{
    set_previous(nodes, chain, Some(key), last);
    set_next(nodes, chain, last, Some(key));
}

/// Unlinks a node from a chain: joins its neighbours. `gone` was its link.
pub fn detach<N: LinkedNode>(nodes: &mut Slab<N>, chain: N::Chain, gone: NodeLink)
    ensures nodes { (k : ℕ) → get nodes.new k ≡ option_map (detached (N.link_of chain) (N.with_link chain) gone k) (get nodes.old k) }
    ensures capacity { nodes.new.capacity ≡ nodes.old.capacity }
    ensures len { slab_len nodes.new ≡ slab_len nodes.old }
{
    set_previous(nodes, chain, gone.next, gone.previous);
    set_next(nodes, chain, gone.previous, gone.next);
}

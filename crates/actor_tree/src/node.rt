//! A node for each living actor, and the writes to its links.
ghost use Rattle.std.specs.Prelude.{◌≡◌, ℕ};
ghost use Rattle.std.specs.Option.{option_map};
ghost use Rattle.slab.specs.Slab.{get};
ghost use Rattle.actor_tree.specs.Node.{with_first, with_last, with_previous, with_next, attached, detached, instead_of, first_link, last_link};

use super::actor::Actor;
use slab::Slab;

/// A living actor with its links, each the key of a node: to its manager, to the oldest and the
/// youngest of the actors that it manages, and to the next older and the next younger of its
/// manager's.
#[derive(Clone, Copy, Drop)]
pub(crate) struct Node {
    pub(crate) actor: Actor,
    pub(crate) manager: Option<usize>,
    pub(crate) first: Option<usize>,
    pub(crate) last: Option<usize>,
    pub(crate) previous: Option<usize>,
    pub(crate) next: Option<usize>,
}

// The link to the manager, with no link to a sibling.
fn instead(sibling: Option<usize>, manager: Option<usize>) -> Option<usize>
    ensures { result ≡ instead_of sibling manager }
{
    match sibling {
        None => manager,
        Some(_) => None,
    }
}

fn set_first(nodes: &mut Slab<Node>, at: Option<usize>, link: Option<usize>)
    ensures { (k : ℕ) → get nodes.new k ≡ option_map (with_first at link k) (get nodes.old k) }
{
    if let Some(key) = at {
        if let Some(node) = nodes.get_mut(key) {
            node.first = link;
        }
    }
}

fn set_last(nodes: &mut Slab<Node>, at: Option<usize>, link: Option<usize>)
    ensures { (k : ℕ) → get nodes.new k ≡ option_map (with_last at link k) (get nodes.old k) }
{
    if let Some(key) = at {
        if let Some(node) = nodes.get_mut(key) {
            node.last = link;
        }
    }
}

fn set_previous(nodes: &mut Slab<Node>, at: Option<usize>, link: Option<usize>)
    ensures { (k : ℕ) → get nodes.new k ≡ option_map (with_previous at link k) (get nodes.old k) }
{
    if let Some(key) = at {
        if let Some(node) = nodes.get_mut(key) {
            node.previous = link;
        }
    }
}

fn set_next(nodes: &mut Slab<Node>, at: Option<usize>, link: Option<usize>)
    ensures { (k : ℕ) → get nodes.new k ≡ option_map (with_next at link k) (get nodes.old k) }
{
    if let Some(key) = at {
        if let Some(node) = nodes.get_mut(key) {
            node.next = link;
        }
    }
}

/// Returns the link of the node at a key to the youngest of those that it manages.
pub(crate) fn youngest(nodes: &Slab<Node>, key: usize) -> Option<usize>
    ensures { result ≡ last_link (get nodes.now key) }
{
    nodes.get(key)?.last
}

/// Returns the link of the node at a key to the oldest of those that it manages.
pub(crate) fn oldest(nodes: &Slab<Node>, key: usize) -> Option<usize>
    ensures { result ≡ first_link (get nodes.now key) }
{
    nodes.get(key)?.first
}

/// Makes the node at `key` the youngest under `manager`, after `previous`, the youngest so far.
pub(crate) fn attach(nodes: &mut Slab<Node>, manager: usize, previous: Option<usize>, key: usize)
    ensures { (k : ℕ) → get nodes.new k ≡ option_map (attached manager previous key k) (get nodes.old k) }
{
    set_next(nodes, previous, Some(key));
    set_first(nodes, instead(previous, Some(manager)), Some(key));
    set_last(nodes, Some(manager), Some(key));
}

/// Removes a node that manages nobody from among its siblings.
pub(crate) fn detach(nodes: &mut Slab<Node>, gone: &Node)
    ensures { (k : ℕ) → get nodes.new k ≡ option_map (detached gone.now k) (get nodes.old k) }
{
    set_next(nodes, gone.previous, gone.next);
    set_first(nodes, instead(gone.previous, gone.manager), gone.next);
    set_previous(nodes, gone.next, gone.previous);
    set_last(nodes, instead(gone.next, gone.manager), gone.previous);
}

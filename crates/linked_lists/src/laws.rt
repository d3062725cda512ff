//! What attaching and detaching nodes keep, as laws for all types of nodes.
ghost use Rattle.linked_lists.specs.Laws.{JoinsChain, LeavesChain, KeepsOthers};

use super::chain::LinkedNode;

/// The law of attaching: a node that is attached after the last node of a chain is then its last node.
pub fn joins_chain<N: LinkedNode>()
    ensures { JoinsChain N.link_of N.with_link }
{}

/// The law of detaching: after the node of a key is detached, its chain has the other keys.
pub fn leaves_chain<N: LinkedNode>()
    ensures { LeavesChain N.link_of N.with_link }
{}

/// The law of other lists: neither operation changes a list of the same chain that the node is not on.
pub fn keeps_others<N: LinkedNode>()
    ensures { KeepsOthers N.link_of N.with_link }
{}

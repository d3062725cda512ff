//! Linked lists whose members are nodes of a slab. A node has a link for each of the chains that it
//! may be on (`LinkedNode`). The links represent a list of keys (`IsChain`, in specs/Chains.antt),
//! `Ends` has the two ends of the list, and proofs alone know its keys (`Keys`).
#![tactic(auto)]

mod chain;
mod keys;
mod laws;
mod link;

pub use chain::{LinkedNode, attach, detach, link_at};
pub use keys::{KeyStep, Keys};
pub use laws::{joins_chain, keeps_others, leaves_chain};
pub use link::{Ends, NodeLink};

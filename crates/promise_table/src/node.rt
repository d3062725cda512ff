//! A node for each promise.
ghost use Rattle.promise_table.specs.Nodes.{link_of, with_link, reads_back};

use crate::promise::Promise;
use linked_lists::{LinkedNode, NodeLink};

/// The lists that a pending promise is on: of all, and of its actor's own.
#[derive(Clone, Copy)]
pub(crate) enum Chain {
    All,
    Own,
}

/// A promise and its links on the lists of the pending ones.
#[derive(Drop)]
pub(crate) struct Node {
    pub(crate) promise: Promise,
    pub(crate) all: NodeLink,
    pub(crate) own: NodeLink,
}

impl LinkedNode for Node {
    type Chain = Chain;

    ghost link_of = { link_of };

    ghost with_link = { with_link };

    fn link(&self, chain: Chain) -> NodeLink {
        match chain {
            Chain::All => self.all,
            Chain::Own => self.own,
        }
    }

    fn set_link(&mut self, chain: Chain, link: NodeLink) {
        match chain {
            Chain::All => self.all = link,
            Chain::Own => self.own = link,
        }
    }

    ghost reads_back = { reads_back };
}

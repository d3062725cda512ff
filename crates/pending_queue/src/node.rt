//! A node for each arrived item.
ghost use Rattle.std.specs.Prelude.{◌≡◌};
ghost use Rattle.pending_queue.specs.Nodes.{link_of, with_link, reads_back};

use crate::item::Item;
use linked_lists::{LinkedNode, NodeLink};

/// The lists that a node is on: all nodes in order of arrival, those of its class, and those alike.
#[derive(Clone, Copy)]
pub(crate) enum Chain {
    Arrival,
    SameClass,
    Alike,
}

/// An item that has arrived, and its links on the lists. The stamps rise in the order of arrival.
#[derive(Drop)]
pub(crate) struct Node {
    pub(crate) item: Item,
    pub(crate) stamp: u64,
    pub(crate) arrival: NodeLink,
    pub(crate) class: NodeLink,
    pub(crate) alike: NodeLink,
}

impl LinkedNode for Node {
    type Chain = Chain;

    ghost link_of = { link_of };

    ghost with_link = { with_link };

    fn link(&self, chain: Chain) -> NodeLink {
        match chain {
            Chain::Arrival => self.arrival,
            Chain::SameClass => self.class,
            Chain::Alike => self.alike,
        }
    }

    fn set_link(&mut self, chain: Chain, link: NodeLink) {
        match chain {
            Chain::Arrival => self.arrival = link,
            Chain::SameClass => self.class = link,
            Chain::Alike => self.alike = link,
        }
    }

    ghost reads_back = { reads_back };
}

//! The links of a node and the ends of a list.
ghost use Rattle.std.specs.Prelude.{◌≡◌};
ghost use Rattle.linked_lists.specs.Links.{no_link, no_ends, ends_with, ends_without};

/// The keys of the nodes before and after a node on a list.
#[derive(Clone, Copy, Drop)]
pub struct NodeLink {
    /// The key of the node before, or `None` for the first.
    pub previous: Option<usize>,
    /// The key of the node after, or `None` for the last.
    pub next: Option<usize>,
}

impl NodeLink {
    /// Returns the link of a node that is on no list, or alone on one.
    pub fn none() -> NodeLink
        ensures { result ≡ no_link }
    {
        NodeLink {
            previous: None,
            next: None,
        }
    }
}

/// The keys of the first and the last node of a list. Both are `None` if the list is empty.
#[derive(Clone, Copy, Drop)]
pub struct Ends {
    /// The key of the first node.
    pub first: Option<usize>,
    /// The key of the last node.
    pub last: Option<usize>,
}

impl Ends {
    /// Returns the ends of an empty list.
    pub fn none() -> Ends
        ensures { result ≡ no_ends }
    {
        Ends {
            first: None,
            last: None,
        }
    }

    /// Returns the ends after one more node is attached.
    pub fn with(self, key: usize) -> Ends
        ensures { result ≡ ends_with self key }
    {
        Ends {
            first: if self.last.is_some() {
                self.first
            } else {
                Some(key)
            },
            last: Some(key),
        }
    }

    /// Returns the ends after a node with this link is detached.
    pub fn without(self, gone: NodeLink) -> Ends
        ensures { result ≡ ends_without self gone }
    {
        Ends {
            first: if gone.previous.is_some() {
                self.first
            } else {
                gone.next
            },
            last: if gone.next.is_some() {
                self.last
            } else {
                gone.previous
            },
        }
    }
}

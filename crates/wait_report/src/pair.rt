//! Pairs of messages of which one may interrupt the wait for the other.
use ipdl_base::{Items, Side};

/// A message that an end may handle while it waits for the reply to another message.
#[derive(Clone, Copy, Debug, PartialEq, Eq)]
pub struct Pair {
    /// The side of the end.
    pub side: Side,
    /// The number of the request whose reply the end waits for.
    pub waits: u32,
    /// The number of the request that it may handle meanwhile.
    pub takes: u32,
}

/// A list of pairs.
pub type Pairs = Items<Pair>;

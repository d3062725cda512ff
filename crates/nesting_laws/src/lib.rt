//! Why two ends that call each other never wait for one another for ever, on sync calls alone: what an end
//! may do with
//! them, the shapes that two ends can be in, and the laws of these shapes (docs/nesting.md). No function of
//! this crate
//! computes anything.
#![tactic(auto)]

mod laws;

pub use laws::{
    alone_stays, links_tell_of_ends, nesting_stays, nobody_is_stuck, one_gives_way,
    replies_are_for_top,
};

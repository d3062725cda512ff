//! What happens by itself at the ends of a channel comes to an end (docs/nesting.md): each such event lowers
//! the weight
//! of the world, and an act adds a bounded amount to it. When nothing more can happen, no end waits and
//! nothing is left.
//! No function of this crate computes anything.
#![tactic(auto)]

mod laws;

pub use laws::{
    histories_are_weighed, lines_tell_acts, moves_are_weighed, promises_are_under_way,
    still_promises_are_kept, still_worlds_are_empty, still_worlds_rest, worlds_come_to_rest,
};

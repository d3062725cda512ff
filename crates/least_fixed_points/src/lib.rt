//! Least fixed points: the nodes that are derived if each needs all of its parts or one of them.
#![tactic(auto)]

mod marking;
mod nodes;
mod users;

pub use nodes::{Need, Node, least_fixed_point};

//! What is needed to play a script (docs/scripts.md): the block that serves each request, found without
//! a walk over the blocks, and the values of its terms.
#![tactic(auto)]

mod blocks;
mod scope;

pub use blocks::BlockTable;
pub use scope::{ActorNames, TermScope};

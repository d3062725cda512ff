//! What may interrupt a wait: which messages may be handled at an end of a channel while it waits for the
//! reply to a
//! sync message, by the schema alone (docs/waits.md). This crate does not depend on how a channel works.
#![tactic(auto)]

mod known;
mod least;
mod pair;
mod report;
mod roles;
mod rounds;
mod spread;

pub use pair::{Pair, Pairs};
pub use report::pairs;

//! The order in which an end takes what has arrived, and what each event owes, as statements on the lines of
//! a history without any state (docs/laws.md). Every legal history obeys these and the statements of the five
//! laws. No function of this crate computes anything.
#![tactic(auto)]

mod lawful;
mod order;
mod owed;

pub use lawful::histories_are_lawful;
pub use order::histories_keep_order;
pub use owed::{fallen_actors_stay_fallen, histories_give_what_they_owe, one_end_has_effects};

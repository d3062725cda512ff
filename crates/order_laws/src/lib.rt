//! The order in which an end takes what has arrived, and the effects that an event must have
//! (docs/nesting.md). These are
//! laws about definitions: no function of this crate computes anything.
#![tactic(auto)]

mod effects;
mod laws;

pub use effects::{
    constructors_build, destructors_delete, due_answers_are_given, managers_live,
    refused_acts_change_nothing, replies_settle,
};
pub use laws::{arrivals_keep_their_order, farewells_are_taken_last, free_items_are_taken};

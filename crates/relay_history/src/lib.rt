//! A relay is one history of the channel and has one result, in whatever order its sides make steps
//! (docs/relay.md). This crate has definitions and laws, and no function that runs.
#![tactic(auto)]

mod laws;

pub use laws::{
    finished_relays_wait_for_nothing, relays_are_histories, relays_come_in_order,
    relays_have_one_result, relays_run_or_start, sides_obey_alone, sides_run_alone,
    stamped_relays_run, turns_have_one_history,
};

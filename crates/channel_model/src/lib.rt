//! The two ends of a channel as definitions: what an end keeps, what each kind of step does to it, the lines
//! that it
//! prints and the packets that it sends. Also the laws that one end keeps, part by part (docs/channel.md). No
//! function
//! of this crate computes anything.
#![tactic(auto)]

mod laws;
mod step_laws;

pub use ipdl_base::EndState;
pub use laws::{
    decides_types, histories_grow, impossible_moves_change_nothing, moves_go_one_after_another,
    nulls_keep_types, plain_forms_commute,
};
pub use step_laws::{
    counts_grow, effects_follow_events, events_have_their_lines, first_actors_are_known,
    first_ends_fit, first_states, fitting_ends_stay, known_actors_stay, next_number_is_free,
    numbers_in_every_run, numbers_stay, states_stay, steps_are_bounded, steps_are_made_of_parts,
};

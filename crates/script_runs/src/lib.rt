//! What every run of a valid script keeps: which handlers run, that each event is possible, that a run
//! at rest is still, that its lines obey the laws, and how much room they take (docs/scripts.md). Also
//! how far a run follows the lines of a text (docs/audit.md). No function here runs.
#![tactic(auto)]

mod laws;

pub use laws::{
    answers_come_once, case_histories_obey_all_laws, case_worlds_fit, cases_have_room,
    handled_are_dispatched, handlers_stand, line_texts_tell_choices, resolvers_are_apart,
    rest_of_cases_is_still, script_events_are_possible, steps_change_dispatches,
    terms_stand_for_values,
};

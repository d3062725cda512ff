//! What the two ends of a channel do by a handler script: what each does next, the histories that a
//! script has, and turns of sides (docs/scripts.md). Definitions and laws: no function here runs.
#![tactic(auto)]

mod laws;

pub use laws::{
    case_worlds_are_one, choices_are_counted, choices_are_read, choices_are_runs, choices_grow,
    functions_pick, quiet_does_nothing, rest_is_quiet, turns_are_choices, words_have_one_result,
};

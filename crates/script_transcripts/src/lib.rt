//! What the transcript of a script's run shows of the run (docs/transcripts.md): which choices made it.
//! No function here runs.
#![tactic(auto)]

mod laws;

pub use laws::{
    case_names_are_words, case_texts_tell_histories, cases_end, legal_texts_decide, replays_decide,
};

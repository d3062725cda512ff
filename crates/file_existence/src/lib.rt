//! Laws that files have an answer: each text has tokens or a first fault, every list of tokens has
//! a tree or a syntax place, and the files that words reach break some rules, or make a program.
//! There is no function that runs.
#![tactic(auto)]

mod laws;

pub use laws::{
    clean_files_have_programs, files_have_answers, findings_are_listed, loads_have_answers,
    reaches_exist, texts_have_answers, tokens_have_answers,
};

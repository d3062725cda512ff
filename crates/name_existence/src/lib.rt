//! Laws of what names find: what a file sees is listed, each name finds nothing, one declaration or
//! two different ones, and which types are defined is decided. There is no function that runs.
#![tactic(auto)]

mod laws;

pub use laws::{
    derivations_are_decided, names_have_answers, protocol_names_have_answers, sights_are_listed,
    types_are_decided,
};

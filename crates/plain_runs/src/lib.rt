//! Where the boxes of values lie in what scripts make: all at one place (docs/DECISIONS.md, "Boxes in trees and values"). Laws
//! about definitions: no function here runs.
#![tactic(auto)]

mod laws;

pub use laws::{relay_lines_are_plain, script_lines_are_plain, steps_stay_plain};

//! The rules on managers: managers and managed protocols, constructors and destructors, cycles,
//! repeated names (docs/protocols.md).
#![tactic(auto)]

mod breach;
mod cycle;
mod known;
mod report;
mod rows;
mod side;
mod subject;

pub use report::add_of_managers;

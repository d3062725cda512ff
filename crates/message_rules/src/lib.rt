//! The rules on messages: their number, levels and semantics, compression, constructors and
//! destructors, parameters (docs/protocols.md).
#![tactic(auto)]

mod kinds;
mod message;
mod params;
mod report;

pub use report::add_of_messages;

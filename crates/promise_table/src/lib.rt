//! The promises that one end has made, each settled once (docs/promises.md).
#![tactic(auto)]

mod laws;
mod node;
mod promise;
mod promises;
mod table;

pub use laws::plain_forms_commute;
pub use promise::{Outcome, Promise, Settling};
pub use promises::Promises;

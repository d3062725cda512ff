//! What one end does, whoever sends to it: its runs, and the law of these runs on its lines and on the
//! packets that
//! were delivered to it (docs/laws.md). No function of this crate computes anything.
#![tactic(auto)]

mod laws;

pub use laws::{one_end_obeys_alone, one_end_obeys_fallen};

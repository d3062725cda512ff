//! What has arrived at one end and was not taken: compression and deferral (docs/arrived.md).
#![tactic(auto)]

mod alike;
mod class;
mod deferral_context;
mod item;
mod laws;
mod node;
mod pending;
mod queue;

pub use deferral_context::DeferralContext;
pub use item::{Item, PushEffect, PushFault};
pub use laws::plain_forms_commute;
pub use pending::Pending;

//! The stack of calls inside calls of one end: what it defers, and which sends it refuses
//! (docs/nesting.md).
#![tactic(auto)]

mod frame;
mod innermost;
mod laws;
mod refusals;
mod stack;

pub use frame::{Answer, Head, PoppedFrame, SendHead, StackFrame, StackTop};
pub use laws::{plain_forms_commute, refuses_by_first_cause};
pub use stack::Stack;

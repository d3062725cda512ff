//! Whether the lines of a history obey the statements on order and on what events owe of `order_statements`
//! (docs/laws.md). The lines may be any list.
#![tactic(auto)]

mod answered;
mod answers;
mod effect_lines;
mod effects;
mod order;
mod rows;
mod waiting;
mod walk;

pub use walk::{gives_answers, gives_effects, keeps_order};

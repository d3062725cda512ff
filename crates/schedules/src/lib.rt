//! How a run goes: the turns of its sides, a death that it is given (docs/scripts.md), and what a side on a thread of its
//! own passes before each of its steps (docs/threads.md).
#![tactic(auto)]

mod gate;
mod stop;
mod turn;

pub use gate::{Gate, MeetingPoint};
pub use stop::Stop;
pub use turn::Turn;

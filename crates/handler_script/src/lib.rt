//! Handler scripts: what each side does on its own and when it handles messages (docs/scripts.md). Has
//! the rules that a script can break, the script of a text that breaks no rule, and its actions one by
//! one.
#![tactic(auto)]

mod action;
mod building;
mod context;
mod fits;
mod lines;
mod mentions;
mod messages;
mod read;
mod report;
mod rules;
mod script;
mod table;
mod term;
mod typed;

pub use action::{Action, Actions, Block, Blocks};
pub use fits::each_fits;
pub use messages::{receives, replies, resolves};
pub use read::read_script;
pub use script::{Point, Script, ScriptFault};
pub use script_reader::Who;
pub use table::MessageTable;
pub use term::{Term, Terms};
pub use typed::terms_of;

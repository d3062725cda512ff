//! The lines of a handler script: the tokens of a line, the statement that they spell, and the reading
//! of each line of a text (docs/scripts.md).
#![tactic(auto)]

mod cursor;
mod laws;
mod line;
mod parts;
mod pieces;
mod reader;
mod statement;
mod statements;
mod stop;
mod token;
mod tokens;
mod values;
mod words;
mod written;

pub use laws::one_reading;
pub use line::{LineReading, LineReadings, MAX_LINE_LEN, read_lines};
pub use statement::{MessageName, Statement, WrittenMessage};
pub use written::{Atom, Who, WrittenValue, WrittenValues};

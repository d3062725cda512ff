//! What all crates share: names and lists, places and rules, files and sinks, the tables of a program, values and messages,
//! the sides of a channel, and the lines of a history. Nothing here knows of texts, of the grammar, or of how a channel works.
#![tactic(auto)]

mod builtin;
mod deferral;
mod file_name;
mod files;
mod finding;
mod full_name;
mod items;
mod kinds;
mod line;
mod message;
mod name;
mod schema;
mod side;
mod signature;
mod sink;
mod token;
mod value;

pub use builtin::Builtin;
pub use deferral::defers_request;
pub use file_name::{HEADER_ENDING, PROTOCOL_ENDING, is_file_word, key_of};
pub use files::{Failure, FileBytes, Files, MOST_BYTES};
pub use finding::{Finding, Findings, Place, Report, Rule};
pub use full_name::short_name;
pub use items::{Items, Numbers};
pub use kinds::{
    Compress, Destroy, Direction, EndState, Level, Reason, Semantics, SendRefusal, Side,
};
pub use line::{Line, What, is_effect};
pub use message::{Body, Message};
pub use name::{Name, Texts};
pub use schema::{
    Kind, MessageRow, MessageRows, ParamRow, ParamRows, ProtocolRow, ProtocolRows, Schema, Shape,
    Shapes, TypeRow, TypeRows,
};
pub use side::{GOODBYE_NUMBER, TOP_ID};
pub use signature::{params_of, returns_of, returns_of_row};
pub use sink::{Sink, WriteAnswer};
pub use token::{Token, TokenKind, Tokens};
pub use value::{Value, Values};

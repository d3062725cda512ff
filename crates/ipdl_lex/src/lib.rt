//! Reads a text as tokens with their places, which borrow its bytes, or gives its first fault
//! (docs/tokens.md).
#![tactic(auto)]

mod laws;
mod scan;
mod token;

pub use ipdl_base::{Token, TokenKind, Tokens};
pub use laws::words_hold;
pub use scan::{is_reserved, lex, one_answer};
pub use token::{LexFault, LexedText};

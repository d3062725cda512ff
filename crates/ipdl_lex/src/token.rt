//! The result of reading a text as tokens, and the faults of a text that is not read.

ghost use Rattle.std.specs.Prelude.{◌≡◌};
ghost use Rattle.ipdl_lex.specs.declared.token.LexFault.TheVariants.{NoMemory};

use ipdl_base::{Place, Tokens};
use std::alloc::AllocError;

/// The tokens that a text was read as. They borrow the bytes of the text.
#[derive(Debug, Drop)]
pub struct LexedText<'t> {
    /// The tokens in text order.
    pub tokens: Tokens<'t>,
    /// The place after the last byte of the text.
    pub end: Place,
}

/// Why a text has no list of tokens. The place is that of the first byte at which no piece begins,
/// or that of the first byte of the token.
#[derive(Clone, Copy, Debug, PartialEq, Eq)]
pub enum LexFault {
    /// No token, blank or comment begins at this byte.
    BadByte(Place),
    /// A `/*` that no `*/` closes.
    OpenComment(Place),
    /// A `"` that no `"` closes on its line.
    OpenString(Place),
    /// A token of more than 256 bytes.
    TooLong(Place),
    /// Memory ran out.
    NoMemory,
}

impl From<AllocError> for LexFault {
    ghost from_gives = { λ _ fault. fault ≡ NoMemory };

    fn from(_: AllocError) -> LexFault {
        LexFault::NoMemory
    }
}

//! Brackets and keywords.

use ipdl_base::Side;

/// The brackets that may enclose values.
#[derive(Clone, Copy)]
pub enum Bracket {
    Round,
    Square,
    Curly,
}

/// The words that a statement may begin with.
#[derive(Clone, Copy)]
pub enum Keyword {
    /// `parent` or `child`.
    Side(Side),
    End,
    Send,
    New,
    Let,
    Resolve,
    Reject,
    Keep,
    Close,
    Die,
    Return,
}

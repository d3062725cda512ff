//! Tokens, and their classes.

use ipdl_base::Name;

/// A token of a line of a script.
#[derive(Drop)]
pub enum ScriptToken {
    Word(Name),
    /// `$n`, the number of a parameter.
    Param(u32),
    /// `@n`, the index of a component.
    Index(u32),
    /// A whole number, negative if written with `-`.
    Number(i128),
    /// A text in quotes, without its escapes.
    Text(Name),
    /// The bytes that hexadecimal digits in quotes spell.
    Bytes(Name),
    Mark(u8),
}

/// The class of a token, by its first bytes.
#[derive(Clone, Copy)]
pub enum TokenClass {
    Word,
    Param,
    Index,
    /// A number with `-`.
    Negative,
    Number,
    Text,
    Bytes,
    Mark,
    /// No token begins like this.
    Other,
}

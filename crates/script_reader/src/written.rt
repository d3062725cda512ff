//! Written values, and what they refer to.

use ipdl_base::Name;

/// The actor or parameter that a statement refers to.
#[derive(Drop)]
pub enum Who {
    /// The top actor.
    Top,
    /// The actor of the handled message.
    This,
    /// The actor that a handled constructor built.
    Made,
    /// The parameter of the handled message with this number, counted from 1. A number above the
    /// greatest `u32` is read as the greatest.
    Param(u32),
    /// The actor with this name.
    Name(Name),
}

/// A value of one token.
#[derive(Drop)]
pub enum Atom {
    Bool(bool),
    /// A whole number. A number beyond 2^64 is read as 2^64, and one below -2^64 as -2^64: no type has
    /// either.
    Number(i128),
    /// Text, in UTF-8.
    Text(Name),
    /// The bytes that hexadecimal digits spell.
    Bytes(Name),
    /// The content of an empty maybe or `UniquePtr`.
    Nothing,
    /// No actor.
    Null,
    /// An actor, or the value of a parameter.
    Who(Who),
}

/// A value as a statement writes it. Its type decides which value it is.
#[cycle(written)]
#[derive(Drop)]
pub enum WrittenValue {
    Atom(Atom),
    /// A struct: its fields.
    Struct(WrittenValues),
    Array(WrittenValues),
    /// A union: the index of its component, and the value. An index above the greatest `u32` is read as
    /// the greatest.
    Union(u32, Box<WrittenValue>),
    /// The content of a maybe or a `UniquePtr`.
    Held(Box<WrittenValue>),
}

/// A list of written values: empty, or a first value and the rest.
#[cycle(written)]
#[derive(Drop)]
pub enum WrittenValues {
    Nothing,
    First(Box<WrittenValue>, Box<WrittenValues>),
}

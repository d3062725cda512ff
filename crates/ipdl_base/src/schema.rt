//! The tables of a program: its protocols, messages and types.
ghost use Rattle.std.specs.Prelude.{◌≡◌, ◌↔◌, slice_get, option_map, IfOk, IsTrue};
ghost use Rattle.ipdl_base.specs.Plain.{plain_shape};

use crate::builtin::Builtin;
use crate::items::{Items, Numbers};
use crate::kinds::{Compress, Direction, Level, Semantics};
use crate::name::Name;
use std::alloc::{AllocError, Global};

/// The protocols and types of a program, by number.
#[derive(Drop)]
pub struct Schema {
    /// The protocols.
    pub protocols: ProtocolRows,
    /// The structs and unions.
    pub types: TypeRows,
}

/// A protocol. Its number is its index in the schema.
#[derive(Drop)]
pub struct ProtocolRow {
    /// The full name, with its namespaces.
    pub name: Name,
    /// The semantics of the protocol.
    pub semantics: Semantics,
    /// The level of the protocol.
    pub level: Level,
    /// The numbers of its managers, in text order.
    pub managers: Numbers,
    /// The numbers of the protocols that it manages, in text order.
    pub manages: Numbers,
    /// Its messages.
    pub messages: MessageRows,
}

/// A message of a protocol.
#[derive(Drop)]
pub struct MessageRow {
    /// The number of its request. The number of its reply is the next one.
    pub number: u32,
    /// The name.
    pub name: Name,
    /// The end that receives it.
    pub direction: Direction,
    /// Whether its sender waits for the reply.
    pub semantics: Semantics,
    /// How far inside other calls it may be sent.
    pub level: Level,
    /// What it does to earlier arrivals.
    pub compress: Compress,
    /// What it does beside being handled.
    pub kind: Kind,
    /// The parameters.
    pub params: ParamRows,
    /// The returns, if it has any.
    pub returns: Option<ParamRows>,
    /// Whether a channel can carry it: no type of its parameters and returns mentions one that is not carried.
    pub carried: bool,
    /// Whether it may wait in its sender's outbox.
    pub lazy: bool,
}

/// What a message does beside being handled.
#[derive(Clone, Copy, Debug, PartialEq, Eq)]
pub enum Kind {
    /// Nothing.
    Normal,
    /// It makes an actor of the protocol with this number.
    Constructor(u32),
    /// Its actor falls.
    Delete,
}

/// A parameter, a return or a field.
#[derive(Drop)]
pub struct ParamRow {
    /// The name.
    pub name: Name,
    /// The type.
    pub shape: Shape,
}

/// A type. `Actor` and `Endpoint` have the number of a protocol and whether it is nullable or managed. `Named` has an
/// index in the types of the schema.
#[derive(Drop)]
pub enum Shape {
    Builtin(Builtin),
    Using(Name),
    Actor(u32, bool),
    Named(u32),
    Array(Box<Shape>),
    Maybe(Box<Shape>),
    Unique(Box<Shape>),
    Endpoint(u32, bool),
}

impl Shape {
    /// Returns a copy, which is the same up to where its boxes lie. Fails only if memory runs out.
    pub fn copy(&self, alloc: Global) -> Result<Shape, AllocError>
        ensures { IfOk result (λ copied. plain_shape copied ≡ plain_shape self.now) }
    {
        match self {
            Shape::Builtin(builtin) => Ok(Shape::Builtin(*builtin)),
            Shape::Using(name) => Ok(Shape::Using(name.copy(alloc)?)),
            Shape::Actor(protocol, nullable) => Ok(Shape::Actor(*protocol, *nullable)),
            Shape::Named(number) => Ok(Shape::Named(*number)),
            Shape::Array(element) => Ok(Shape::Array(Box::new(alloc, element.copy(alloc)?)?)),
            Shape::Maybe(held) => Ok(Shape::Maybe(Box::new(alloc, held.copy(alloc)?)?)),
            Shape::Unique(held) => Ok(Shape::Unique(Box::new(alloc, held.copy(alloc)?)?)),
            Shape::Endpoint(protocol, managed) => Ok(Shape::Endpoint(*protocol, *managed)),
        }
    }

    /// Returns whether both are the same type, up to where their boxes lie.
    pub fn same(&self, other: &Shape) -> bool
        ensures { IsTrue result ↔ (plain_shape self.now ≡ plain_shape other.now) }
    {
        match (self, other) {
            (Shape::Builtin(a), Shape::Builtin(b)) => *a == *b,
            (Shape::Using(a), Shape::Using(b)) => a.as_slice() == b.as_slice(),
            (Shape::Actor(p, a), Shape::Actor(q, b)) => *p == *q && *a == *b,
            (Shape::Named(a), Shape::Named(b)) => *a == *b,
            (Shape::Array(a), Shape::Array(b)) => a.same(b),
            (Shape::Maybe(a), Shape::Maybe(b)) => a.same(b),
            (Shape::Unique(a), Shape::Unique(b)) => a.same(b),
            (Shape::Endpoint(p, a), Shape::Endpoint(q, b)) => *p == *q && *a == *b,
            _ => false,
        }
    }
}

/// A struct or a union, with its full name and its fields or components.
#[derive(Drop)]
pub enum TypeRow {
    Struct(Name, ParamRows),
    Union(Name, Shapes),
}

/// A list of protocols.
pub type ProtocolRows = Items<ProtocolRow>;

/// A list of messages.
pub type MessageRows = Items<MessageRow>;

/// A list of parameters.
pub type ParamRows = Items<ParamRow>;

/// A list of structs and unions.
pub type TypeRows = Items<TypeRow>;

/// A list of types.
pub type Shapes = Items<Shape>;

impl Schema {
    ghost use Rattle.ipdl_base.specs.Sound.{IsSound, message_of};

    /// Returns the protocol with this number, or `None` if the number is not below the count.
    pub fn protocol(&self, number: u32) -> Option<&ProtocolRow>
        requires { IsSound self.now }
        ensures { option_map (λ row. row.now) result ≡ slice_get self.now.protocols number }
    {
        self.protocols.as_slice().get(number as usize)
    }

    /// Returns the message whose request or reply has this number, or `None`.
    pub fn message(&self, number: u32) -> Option<&MessageRow>
        requires { IsSound self.now }
        ensures { option_map (λ row. row.now) result ≡ message_of self.now number }
    {
        let protocol = self.protocol(number / 65536)?;
        let message = protocol
            .messages
            .as_slice()
            .get((number % 65536 / 2) as usize)?;
        if number % 2 == 0 || message.has_reply() {
            Some(message)
        } else {
            None
        }
    }
}

impl MessageRow {
    ghost use Rattle.ipdl_base.specs.Sound.{has_reply};

    /// Returns whether the message is answered by a reply: it is sync, or it has returns.
    pub fn has_reply(&self) -> bool
        ensures { result ≡ has_reply self.now }
    {
        self.semantics == Semantics::Sync || self.returns.is_some()
    }
}

//! Values.
ghost use Rattle.std.specs.Prelude.{◌≡◌, ◌↔◌, IfOk, IsTrue};
ghost use Rattle.ipdl_base.specs.Plain.{plain, plain_values};

use crate::name::Name;
use std::alloc::{AllocError, Global};

/// A value that a channel carries.
#[cycle(value)]
#[derive(Debug, Drop)]
pub enum Value {
    /// A `bool`.
    Bool(bool),
    /// A whole number, in the range of its type.
    Int(i128),
    /// Text, in UTF-8.
    Text(Name),
    /// Bytes.
    Bytes(Name),
    /// The bits of a float or a double.
    Bits(u64),
    /// A struct, as the values of its fields.
    Struct(Values),
    /// A union, as the index of a component and a value of its type.
    Union(u32, Box<Value>),
    /// An array, as its elements.
    Array(Values),
    /// A maybe or a `UniquePtr`.
    Maybe(Option<Box<Value>>),
    /// An actor, as its id. The id 0 is null.
    Actor(i32),
}

/// A list of values.
#[cycle(value)]
#[derive(Debug, Drop)]
pub enum Values {
    /// No values.
    Nothing,
    /// A first value and the rest.
    First(Box<Value>, Box<Values>),
}

impl Value {
    /// Returns a copy, which is the same up to where its boxes lie. Fails only if memory runs out.
    #[cycle(copy)]
    pub fn copy(&self, alloc: Global) -> Result<Value, AllocError>
        ensures { IfOk result (λ copied. plain copied ≡ plain self.now) }
    {
        match self {
            Value::Bool(b) => Ok(Value::Bool(*b)),
            Value::Int(n) => Ok(Value::Int(*n)),
            Value::Text(text) => Ok(Value::Text(text.copy(alloc)?)),
            Value::Bytes(bytes) => Ok(Value::Bytes(bytes.copy(alloc)?)),
            Value::Bits(bits) => Ok(Value::Bits(*bits)),
            Value::Struct(fields) => Ok(Value::Struct(fields.copy(alloc)?)),
            Value::Union(index, held) => Ok(Value::Union(
                *index,
                Box::new(alloc, held.copy(alloc)?)?,
            )),
            Value::Array(elements) => Ok(Value::Array(elements.copy(alloc)?)),
            Value::Maybe(None) => Ok(Value::Maybe(None)),
            Value::Maybe(Some(held)) => {
                Ok(Value::Maybe(Some(Box::new(alloc, held.copy(alloc)?)?)))
            }
            Value::Actor(id) => Ok(Value::Actor(*id)),
        }
    }

    /// Returns whether both are the same value, up to where their boxes lie.
    #[cycle(same)]
    pub fn same(&self, other: &Value) -> bool
        ensures { IsTrue result ↔ (plain self.now ≡ plain other.now) }
    {
        match (self, other) {
            (Value::Bool(a), Value::Bool(b)) => *a == *b,
            (Value::Int(a), Value::Int(b)) => *a == *b,
            (Value::Text(a), Value::Text(b)) => a.as_slice() == b.as_slice(),
            (Value::Bytes(a), Value::Bytes(b)) => a.as_slice() == b.as_slice(),
            (Value::Bits(a), Value::Bits(b)) => *a == *b,
            (Value::Struct(a), Value::Struct(b)) => a.same(b),
            (Value::Union(i, a), Value::Union(j, b)) => *i == *j && a.same(b),
            (Value::Array(a), Value::Array(b)) => a.same(b),
            (Value::Maybe(None), Value::Maybe(None)) => true,
            (Value::Maybe(Some(a)), Value::Maybe(Some(b))) => a.same(b),
            (Value::Actor(a), Value::Actor(b)) => *a == *b,
            _ => false,
        }
    }
}

impl Values {
    /// Returns a copy, which is the same up to where its boxes lie. Fails only if memory runs out.
    #[cycle(copy)]
    pub fn copy(&self, alloc: Global) -> Result<Values, AllocError>
        ensures { IfOk result (λ copied. plain_values copied ≡ plain_values self.now) }
    {
        match self {
            Values::Nothing => Ok(Values::Nothing),
            Values::First(first, rest) => Ok(Values::First(
                Box::new(alloc, first.copy(alloc)?)?,
                Box::new(alloc, rest.copy(alloc)?)?,
            )),
        }
    }

    /// Returns whether both are the same values, up to where their boxes lie.
    #[cycle(same)]
    pub fn same(&self, other: &Values) -> bool
        ensures { IsTrue result ↔ (plain_values self.now ≡ plain_values other.now) }
    {
        match (self, other) {
            (Values::Nothing, Values::Nothing) => true,
            (Values::First(a, xs), Values::First(b, ys)) => a.same(b) && xs.same(ys),
            _ => false,
        }
    }
}

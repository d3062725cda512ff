//! Terms: values that may have parameters and names in them.

ghost use Rattle.std.specs.Prelude.{◌≡◌, IfOk};
ghost use Rattle.ipdl_base.specs.Plain.{one_box};
ghost use Rattle.handler_script.specs.declared.term.Terms.{First'};
ghost use Rattle.handler_script.specs.Plain.{plain_term, plain_terms};

use crate::typed::copy_who;
use ipdl_base::Name;
use script_reader::Who;
use std::alloc::{AllocError, Global};

/// A value in an action, which may have parameters and names in it.
#[cycle(term)]
#[derive(Drop)]
pub enum Term {
    Bool(bool),
    /// A whole number, in the range of its type.
    Int(i128),
    /// Text, in UTF-8.
    Text(Name),
    Bytes(Name),
    /// The bits of a float or a double.
    Bits(u64),
    /// A struct: its fields.
    Struct(Terms),
    /// A union: the index of its component, and the value.
    Union(u32, Box<Term>),
    Array(Terms),
    /// A maybe or a `UniquePtr`.
    Maybe(Option<Box<Term>>),
    /// An actor, by its id; 0 is null.
    Actor(i32),
    /// The value of the handled message's parameter with this number, counted from 1.
    Param(u32),
    /// The actor that this refers to.
    Who(Who),
}

/// A list of terms: empty, or a first term and the rest.
#[cycle(term)]
#[derive(Drop)]
pub enum Terms {
    Nothing,
    First(Box<Term>, Box<Terms>),
}

/// Returns the list with this term before the others. Kept out of the recursive functions, so that
/// these need little room on the stack.
#[inline(never)]
pub fn first_of(alloc: Global, first: Term, rest: Terms) -> Result<Terms, AllocError>
    ensures { IfOk result (λ ts. plain_terms ts ≡ First' one_box (plain_term first) one_box (plain_terms rest)) }
{
    let first = Box::new(alloc, first)?;
    Ok(Terms::First(first, Box::new(alloc, rest)?))
}

impl Term {
    /// Copies the term. The copy is equal up to where its boxes lie. Fails only if memory runs out.
    #[cycle(copy)]
    pub fn copy(&self, alloc: Global) -> Result<Term, AllocError>
        ensures { IfOk result (λ copied. plain_term copied ≡ plain_term self.now) }
    {
        match self {
            Term::Bool(b) => Ok(Term::Bool(*b)),
            Term::Int(n) => Ok(Term::Int(*n)),
            Term::Text(text) => Ok(Term::Text(text.copy(alloc)?)),
            Term::Bytes(bytes) => Ok(Term::Bytes(bytes.copy(alloc)?)),
            Term::Bits(bits) => Ok(Term::Bits(*bits)),
            Term::Struct(fields) => Ok(Term::Struct(fields.copy(alloc)?)),
            Term::Union(index, held) => {
                Ok(Term::Union(*index, Box::new(alloc, held.copy(alloc)?)?))
            }
            Term::Array(elements) => Ok(Term::Array(elements.copy(alloc)?)),
            Term::Maybe(None) => Ok(Term::Maybe(None)),
            Term::Maybe(Some(held)) => {
                Ok(Term::Maybe(Some(Box::new(alloc, held.copy(alloc)?)?)))
            }
            Term::Actor(id) => Ok(Term::Actor(*id)),
            Term::Param(n) => Ok(Term::Param(*n)),
            Term::Who(who) => Ok(Term::Who(copy_who(alloc, who)?)),
        }
    }
}

impl Terms {
    /// Copies the terms. The copy is equal up to where their boxes lie. Fails only if memory runs out.
    #[cycle(copy)]
    pub fn copy(&self, alloc: Global) -> Result<Terms, AllocError>
        ensures { IfOk result (λ copied. plain_terms copied ≡ plain_terms self.now) }
    {
        match self {
            Terms::Nothing => Ok(Terms::Nothing),
            Terms::First(first, rest) => Ok(Terms::First(
                Box::new(alloc, first.copy(alloc)?)?,
                Box::new(alloc, rest.copy(alloc)?)?,
            )),
        }
    }
}

//! Makes terms from written values, by their types.

ghost use Rattle.std.specs.Prelude.{◌≡◌, ◌≤◌, length, IfOk};
ghost use Rattle.handler_script.specs.Plain.{plain_term, plain_terms};
ghost use Rattle.handler_script.specs.Terms as terms;
ghost use Rattle.value_types.specs.Shapes as shapes;

use crate::term::{Term, Terms, first_of};
use ipdl_base::{Builtin, Name, ParamRow, Schema, Shape};
use script_reader::{Atom, Who, WrittenValue, WrittenValues};
use std::alloc::{AllocError, Global};
use value_types::{builtin_of, component_of, element_of, fields_of, held_by};

/// Returns the number that bytes spell, the highest first.
fn number_of(bytes: &[u8]) -> u64
    requires { length bytes.now ≤ 8 }
    ensures { result ≡ terms.number_of bytes.now }
{
    let mut n = 0;
    for b in bytes {
        n = 256 * n + u64::from(*b);
    }
    n
}

/// Returns the term of hexadecimal bytes: the bits of a float or double, or else bytes.
fn bytes_term(alloc: Global, shape: &Shape, bytes: &Name) -> Result<Term, AllocError>
    ensures { IfOk result (λ t. t ≡ terms.bytes_term (shapes.builtin_of shape.now) bytes.now) }
{
    match builtin_of(shape) {
        Some(Builtin::Float) if bytes.len() == 4 => Ok(Term::Bits(number_of(bytes.as_slice()))),
        Some(Builtin::Double) if bytes.len() == 8 => Ok(Term::Bits(number_of(bytes.as_slice()))),
        _ => Ok(Term::Bytes(bytes.copy(alloc)?)),
    }
}

/// Copies the value.
pub fn copy_who(alloc: Global, who: &Who) -> Result<Who, AllocError>
    ensures { IfOk result (λ w. w ≡ who.now) }
{
    match who {
        Who::Top => Ok(Who::Top),
        Who::This => Ok(Who::This),
        Who::Made => Ok(Who::Made),
        Who::Param(n) => Ok(Who::Param(*n)),
        Who::Name(name) => Ok(Who::Name(name.copy(alloc)?)),
    }
}

/// Returns the term of an actor or parameter that a value refers to.
fn who_term(alloc: Global, who: &Who) -> Result<Term, AllocError>
    ensures { IfOk result (λ t. t ≡ terms.who_term who.now) }
{
    match who {
        Who::Param(n) => Ok(Term::Param(*n)),
        _ => Ok(Term::Who(copy_who(alloc, who)?)),
    }
}

/// Returns the term of a value of one token.
fn atom_term(alloc: Global, shape: &Shape, atom: &Atom) -> Result<Term, AllocError>
    ensures { IfOk result (λ t. t ≡ terms.atom_term shape.now atom.now) }
{
    match atom {
        Atom::Bool(b) => Ok(Term::Bool(*b)),
        Atom::Number(n) => Ok(Term::Int(*n)),
        Atom::Text(text) => Ok(Term::Text(text.copy(alloc)?)),
        Atom::Bytes(bytes) => bytes_term(alloc, shape, bytes),
        Atom::Nothing => Ok(Term::Maybe(None)),
        Atom::Null => Ok(Term::Actor(0)),
        Atom::Who(who) => who_term(alloc, who),
    }
}

/// Returns the term of a written value in a type.
#[cycle(typed)]
fn term_of(
    value: &WrittenValue,
    alloc: Global,
    schema: &Schema,
    shape: &Shape,
) -> Result<Term, AllocError>
    ensures { IfOk result (λ t. plain_term t ≡ terms.term_of schema.now shape.now value.now) }
{
    match value {
        WrittenValue::Atom(atom) => Ok(atom_term(alloc, shape, atom)?),
        WrittenValue::Struct(values) => {
            let fields = fields_of(schema, shape).unwrap_or(&[]);
            Ok(Term::Struct(terms_of(values, alloc, schema, fields)?))
        }
        WrittenValue::Array(values) => {
            let element = element_of(shape).unwrap_or(shape);
            Ok(Term::Array(elements_of(values, alloc, schema, element)?))
        }
        WrittenValue::Union(index, held) => {
            let component = component_of(schema, shape, *index).unwrap_or(shape);
            let held = term_of(held, alloc, schema, component)?;
            Ok(Term::Union(*index, Box::new(alloc, held)?))
        }
        WrittenValue::Held(held) => {
            let inner = held_by(shape).unwrap_or(shape);
            let held = term_of(held, alloc, schema, inner)?;
            Ok(Term::Maybe(Some(Box::new(alloc, held)?)))
        }
    }
}

/// Returns the terms of values of one type.
#[cycle(typed)]
fn elements_of(
    values: &WrittenValues,
    alloc: Global,
    schema: &Schema,
    shape: &Shape,
) -> Result<Terms, AllocError>
    ensures { IfOk result (λ ts. plain_terms ts ≡ terms.elements_of schema.now shape.now values.now) }
{
    match values {
        WrittenValues::Nothing => Ok(Terms::Nothing),
        WrittenValues::First(value, rest) => {
            let first = term_of(value, alloc, schema, shape)?;
            let rest = elements_of(rest, alloc, schema, shape)?;
            first_of(alloc, first, rest)
        }
    }
}

/// Returns the terms of values, one for each field or parameter.
#[cycle(typed)]
pub fn terms_of(
    values: &WrittenValues,
    alloc: Global,
    schema: &Schema,
    fields: &[ParamRow],
) -> Result<Terms, AllocError>
    ensures { IfOk result (λ ts. plain_terms ts ≡ terms.terms_of schema.now fields.now values.now) }
{
    match (values, fields.split_first()) {
        (WrittenValues::First(value, rest), Some((field, more))) => {
            let first = term_of(value, alloc, schema, &field.shape)?;
            let rest = terms_of(rest, alloc, schema, more)?;
            first_of(alloc, first, rest)
        }
        _ => Ok(Terms::Nothing),
    }
}

//! Whether written values fit types.

ghost use Rattle.std.specs.Prelude.{◌≡◌, ◌↔◌, IsTrue, option_map};
ghost use Rattle.handler_script.specs.Terms as terms;

use ipdl_base::{Builtin, ParamRow, Schema, Shape, Value};
use script_reader::{Atom, Who, WrittenValue, WrittenValues};
use value_types::{builtin_of, component_of, element_of, fields_of, held_by, is_bytes, value_fits};

/// Returns the parameter with this number, counted from 1.
pub fn param_at(params: &[ParamRow], n: u32) -> Option<&ParamRow>
    ensures { option_map (λ p. p.now) result ≡ terms.param_at params.now n }
{
    if n == 0 {
        return None;
    }
    params.get((n - 1) as usize)
}

/// Returns whether a type is that of an actor.
pub fn is_actor(shape: &Shape) -> bool
    ensures { result ≡ terms.is_actor shape.now }
{
    matches!(shape, Shape::Actor(_, _))
}

/// Returns whether a parameter of the type `one` may be given where a value of the type `other` is
/// expected.
fn stands_for(one: &Shape, other: &Shape) -> bool
    ensures { IsTrue result ↔ terms.StandsFor one.now other.now }
{
    match (one, other) {
        (Shape::Actor(p, _), Shape::Actor(q, true)) => *p == *q,
        _ => one.same(other),
    }
}

/// Returns whether an actor or parameter that a value refers to fits a type.
fn who_fits(given: &[ParamRow], shape: &Shape, who: &Who) -> bool
    ensures { IsTrue result ↔ terms.WhoFits given.now shape.now who.now }
{
    match who {
        Who::Param(n) => match param_at(given, *n) {
            Some(param) => stands_for(&param.shape, shape),
            None => false,
        },
        _ => is_actor(shape),
    }
}

/// Returns whether the type is a float or a double, and these hexadecimal bytes have its size.
fn are_bits(shape: &Shape, bytes: &[u8]) -> bool
    ensures { IsTrue result ↔ terms.AreBits shape.now bytes.now }
{
    match builtin_of(shape) {
        Some(Builtin::Float) => bytes.len() == 4,
        Some(Builtin::Double) => bytes.len() == 8,
        _ => false,
    }
}

/// Returns whether a value of one token fits a type.
fn atom_fits(atom: &Atom, schema: &Schema, given: &[ParamRow], shape: &Shape) -> bool
    ensures { IsTrue result ↔ terms.AtomFits given.now shape.now atom.now }
{
    match atom {
        Atom::Bool(_) => builtin_of(shape) == Some(Builtin::Bool),
        Atom::Number(n) => value_fits(schema, shape, &Value::Int(*n)),
        Atom::Text(text) => {
            builtin_of(shape) == Some(Builtin::NsString)
                && std::str::from_utf8(text.as_slice()).is_ok()
        }
        Atom::Bytes(bytes) => is_bytes(shape) || are_bits(shape, bytes.as_slice()),
        Atom::Nothing => held_by(shape).is_some(),
        Atom::Null => value_fits(schema, shape, &Value::Actor(0)),
        Atom::Who(who) => who_fits(given, shape, who),
    }
}

/// Returns whether a written value fits a type.
#[cycle(fits)]
fn fits(value: &WrittenValue, schema: &Schema, given: &[ParamRow], shape: &Shape) -> bool
    ensures { IsTrue result ↔ terms.Fits schema.now given.now shape.now value.now }
{
    match value {
        WrittenValue::Atom(atom) => atom_fits(atom, schema, given, shape),
        WrittenValue::Struct(values) => match fields_of(schema, shape) {
            Some(fields) => each_fits(values, schema, given, fields),
            None => false,
        },
        WrittenValue::Array(values) => match element_of(shape) {
            Some(element) => all_fit(values, schema, given, element),
            None => false,
        },
        WrittenValue::Union(index, held) => match component_of(schema, shape, *index) {
            Some(component) => fits(held, schema, given, component),
            None => false,
        },
        WrittenValue::Held(held) => match held_by(shape) {
            Some(inner) => fits(held, schema, given, inner),
            None => false,
        },
    }
}

/// Returns whether each value fits the type.
#[cycle(fits)]
fn all_fit(values: &WrittenValues, schema: &Schema, given: &[ParamRow], shape: &Shape) -> bool
    ensures { IsTrue result ↔ terms.AllFit schema.now given.now shape.now values.now }
{
    match values {
        WrittenValues::Nothing => true,
        WrittenValues::First(value, rest) => {
            fits(value, schema, given, shape) && all_fit(rest, schema, given, shape)
        }
    }
}

/// Returns whether there is one value for each field or parameter, and each fits its type.
#[cycle(fits)]
pub fn each_fits(
    values: &WrittenValues,
    schema: &Schema,
    given: &[ParamRow],
    fields: &[ParamRow],
) -> bool
    ensures { IsTrue result ↔ terms.EachFits schema.now given.now fields.now values.now }
{
    match (values, fields.split_first()) {
        (WrittenValues::Nothing, None) => true,
        (WrittenValues::First(value, rest), Some((field, more))) => {
            fits(value, schema, given, &field.shape) && each_fits(rest, schema, given, more)
        }
        _ => false,
    }
}

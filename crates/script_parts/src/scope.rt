//! The values of terms in a handler.

ghost use Rattle.std.specs.Prelude.{◌≡◌, ℕ, ℤ, List, Option, IfOk};
ghost use Rattle.std.specs.Option.{option_map_or};
ghost use Rattle.ipdl_base.specs.declared.value.Value.TheVariants as value;
ghost use Rattle.ipdl_base.specs.Plain.{plain, plain_values};
ghost use Rattle.handler_script.specs.ValueOf.{given_at, id_in, id_of, no_id, value_of, values_of};
ghost use Rattle.script_parts.specs.Scopes.{context_of};

use handler_script::{Term, Terms, Who};
use ipdl_base::{Name, TOP_ID, Value, Values};
use std::alloc::{AllocError, Global};

const NOBODY: i32 = -1;

/// Looks up actors by name.
pub trait ActorNames {
    /// The id of the actor with each name.
    ghost held: { Self → List ℕ → Option ℤ };

    /// Returns the id of the actor with this name, if there is one.
    fn actor(&self, name: &Name) -> Option<i32>
        ensures { result ≡ held self.now name.now };
}

/// The context of terms in a handler: the id of the handled message's actor, the id of the actor that
/// it built, and its values.
#[derive(Clone, Copy)]
pub struct TermScope<'a> {
    /// The id of the handled message's actor.
    pub this: i32,
    /// The id of the actor that the handled constructor built.
    pub made: i32,
    /// The values of the handled message.
    pub given: &'a Values,
}

impl<'a> TermScope<'a> {
    /// Returns the id of the actor that `who` refers to, or -1, which never lives, if there is no such
    /// actor. Takes no memory.
    pub fn id_of<N: ActorNames>(&self, names: &N, who: &Who) -> i32
        ensures { result ≡ id_of (context_of self.now (N.held names.now)) who.now }
    {
        match who {
            Who::Top => TOP_ID,
            Who::This => self.this,
            Who::Made => self.made,
            Who::Param(number) => given_actor(self.given, *number),
            Who::Name(name) => names.actor(name).unwrap_or(NOBODY),
        }
    }

    /// Returns the value that a term represents. Fails only if memory runs out.
    #[cycle(evaluate)]
    pub fn value_of<N: ActorNames>(
        &self,
        alloc: Global,
        names: &N,
        term: &Term,
    ) -> Result<Value, AllocError>
        ensures { IfOk result (λ v. plain v ≡ value_of (context_of self.now (N.held names.now)) term.now) }
    {
        match term {
            Term::Bool(b) => Ok(Value::Bool(*b)),
            Term::Int(n) => Ok(Value::Int(*n)),
            Term::Text(text) => Ok(Value::Text(text.copy(alloc)?)),
            Term::Bytes(bytes) => Ok(Value::Bytes(bytes.copy(alloc)?)),
            Term::Bits(bits) => Ok(Value::Bits(*bits)),
            Term::Struct(fields) => Ok(Value::Struct(self.values_of(alloc, names, fields)?)),
            Term::Union(index, held) => Ok(Value::Union(
                *index,
                Box::new(alloc, self.value_of(alloc, names, held)?)?,
            )),
            Term::Array(elements) => Ok(Value::Array(self.values_of(alloc, names, elements)?)),
            Term::Maybe(None) => Ok(Value::Maybe(None)),
            Term::Maybe(Some(held)) => Ok(Value::Maybe(Some(Box::new(
                alloc,
                self.value_of(alloc, names, held)?,
            )?))),
            Term::Actor(id) => Ok(Value::Actor(*id)),
            Term::Param(number) => copy_given(alloc, self.given, *number),
            Term::Who(who) => Ok(Value::Actor(self.id_of(names, who))),
        }
    }

    /// Returns the values that terms represent. Fails only if memory runs out.
    #[cycle(evaluate)]
    pub fn values_of<N: ActorNames>(
        &self,
        alloc: Global,
        names: &N,
        terms: &Terms,
    ) -> Result<Values, AllocError>
        ensures { IfOk result (λ vs. plain_values vs ≡ values_of (context_of self.now (N.held names.now)) terms.now) }
    {
        match terms {
            Terms::Nothing => Ok(Values::Nothing),
            Terms::First(first, rest) => Ok(Values::First(
                Box::new(alloc, self.value_of(alloc, names, first)?)?,
                Box::new(alloc, self.values_of(alloc, names, rest)?)?,
            )),
        }
    }
}

// Returns the value of the parameter with this number, counted from 1, if there is one.
fn given_value<'a>(given: &'a Values, number: u32) -> Option<&'a Value>
    ensures { option_map_or (λ v. plain v.now) result (value.Actor no_id) ≡ given_at given.now number }
{
    match given {
        Values::First(first, rest) if number > 0 => {
            if number == 1 {
                Some(first)
            } else {
                given_value(rest, number - 1)
            }
        }
        _ => None,
    }
}

// Returns the id of the actor in the parameter with this number, or -1 if it is not an actor.
fn given_actor(given: &Values, number: u32) -> i32
    ensures { result ≡ id_in (given_at given.now number) }
{
    match given_value(given, number) {
        Some(Value::Actor(id)) => *id,
        _ => NOBODY,
    }
}

// Copies the value of the parameter with this number. If there is no such parameter, returns an actor
// that never lives.
fn copy_given(alloc: Global, given: &Values, number: u32) -> Result<Value, AllocError>
    ensures { IfOk result (λ v. plain v ≡ given_at given.now number) }
{
    match given_value(given, number) {
        Some(v) => v.copy(alloc),
        None => Ok(Value::Actor(NOBODY)),
    }
}

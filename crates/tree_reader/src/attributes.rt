//! Reads lists of attributes.

ghost use Rattle.std.specs.Prelude.{◌≡◌, ◌<◌, ◌≤◌, IfOk, OnOk, IfErr, List, [], ◌∷◌, length};
ghost use Rattle.ipdl_syntax.specs.Grammar.{value, attribute, attributes};
ghost use Rattle.tree_reader.specs.Machine.{Form, attributed, after_attribute, more_attributed};
ghost use Rattle.tree_reader.specs.Reading.{Turns, Stops, IsBracketed, MayBeHeaded};

use crate::reader::TokenReader;
use crate::refusal::TreeRefusal;
use crate::symbol::Symbol;
use ipdl_base::{Items, Name};
use ipdl_syntax::{Attribute, Attributes, NameAt};
use std::alloc::Global;

/// Takes the value of an attribute, if it has one.
fn value(alloc: Global, reader: &mut TokenReader) -> Result<Option<Name>, TreeRefusal>
    ensures read { IfOk result (λ text. value text reader.old reader.new) }
    ensures turns { OnOk result (Turns (after_attribute ∷ []) reader.old (more_attributed ∷ []) reader.new) }
    ensures stops { IfErr result (Stops (after_attribute ∷ []) reader.old) }
    ensures fewer { OnOk result (length reader.new ≤ length reader.old) }
{
    if reader.skips(Symbol::Equals) {
        Ok(Some(reader.any_word(alloc)?))
    } else {
        Ok(None)
    }
}

/// Takes an attribute.
fn attribute(alloc: Global, reader: &mut TokenReader) -> Result<Attribute, TreeRefusal>
    ensures read { IfOk result (λ a. attribute a reader.old reader.new) }
    ensures turns { OnOk result (Turns (attributed ∷ []) reader.old (more_attributed ∷ []) reader.new) }
    ensures stops { IfErr result (Stops (attributed ∷ []) reader.old) }
    ensures less { OnOk result (length reader.new < length reader.old) }
{
    let NameAt { name, place } = reader.word(alloc)?;
    let value = value(alloc, reader)?;
    Ok(Attribute { name, value, place })
}

/// Takes attributes after their `[`, to their `]`.
pub(crate) fn bracketed(alloc: Global, reader: &mut TokenReader) -> Result<Attributes, TreeRefusal>
    ensures read { IfOk result (λ all. IsBracketed all reader.old reader.new) }
    ensures turns { OnOk result (Turns (attributed ∷ []) reader.old [] reader.new) }
    ensures stops { IfErr result (Stops (attributed ∷ []) reader.old) }
    ensures less { OnOk result (length reader.new < length reader.old) }
{
    let mut all = Vec::new(alloc);
    all.push(attribute(alloc, reader)?)?;
    'attributes: while reader.skips(Symbol::Comma) {
        all.push(attribute(alloc, reader)?)?;
    }
    reader.take(Symbol::CloseBracket)?;
    Ok(Items::from_vec(all))
}

/// Takes attributes in brackets, if there are any.
pub(crate) fn attributes(alloc: Global, reader: &mut TokenReader) -> Result<Attributes, TreeRefusal>
    ensures read { IfOk result (λ all. attributes all reader.old reader.new) }
    ensures turns { OnOk result ((f : Form) (others : List Form) → MayBeHeaded f others reader.old → Turns (f ∷ []) reader.old others reader.new) }
    ensures stops { IfErr result (λ e. (f : Form) (others : List Form) → MayBeHeaded f others reader.old → Stops (f ∷ []) reader.old e) }
    ensures fewer { OnOk result (length reader.new ≤ length reader.old) }
{
    if reader.skips(Symbol::OpenBracket) {
        bracketed(alloc, reader)
    } else {
        Ok(Items::from_vec(Vec::new(alloc)))
    }
}

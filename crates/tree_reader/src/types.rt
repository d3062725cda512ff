//! Reads types.

ghost use Rattle.std.specs.Prelude.{◌≡◌, ℕ, ◌<◌, ◌≤◌, IfOk, OnOk, IfErr, [], ◌∷◌, length};
ghost use Rattle.ipdl_syntax.specs.Grammar.{suffixes, base, type_round, type_spec};
ghost use Rattle.ipdl_syntax.specs.Parts.{at};
ghost use Rattle.tree_reader.specs.Ending.{Ending};
ghost use Rattle.tree_reader.specs.Machine.{take, suffixed, based, typed};
ghost use Rattle.tree_reader.specs.Reading.{Turns, Stops, last, MaySuffix};

use crate::names::{QualifiedName, name_with_argument};
use crate::reader::TokenReader;
use crate::refusal::TreeRefusal;
use crate::symbol::Symbol;
use ipdl_base::{Items, Place};
use ipdl_syntax::{Base, Suffix, Suffixes, TypeSpec};
use std::alloc::Global;

/// Takes a suffix, if there is one.
fn suffix(reader: &mut TokenReader) -> Result<Option<Suffix>, TreeRefusal>
    ensures read { IfOk result (λ found. MaySuffix found reader.old reader.new) }
    ensures stops { IfErr result (λ e. (n : ℕ) (e' : Ending) → 0 < n → Stops (suffixed n e' ∷ []) reader.old e) }
    ensures fewer { OnOk result (length reader.new ≤ length reader.old) }
{
    if reader.skips(Symbol::Question) {
        return Ok(Some(Suffix::Maybe));
    }
    if reader.skips(Symbol::OpenBracket) {
        reader.take(Symbol::CloseBracket)?;
        return Ok(Some(Suffix::Array));
    }
    Ok(None)
}

/// Takes the suffixes of a type, at most four.
fn suffixes(alloc: Global, reader: &mut TokenReader) -> Result<Suffixes, TreeRefusal>
    ensures read { IfOk result (λ all. suffixes all reader.old reader.new) }
    ensures few { IfOk result (λ all. length all ≤ 4) }
    ensures turns { OnOk result ((e : Ending) → Turns (suffixed 4 e ∷ []) reader.old (take (last e) ∷ []) reader.new) }
    ensures stops { IfErr result (λ r. (e : Ending) → Stops (suffixed 4 e ∷ []) reader.old r) }
    ensures fewer { OnOk result (length reader.new ≤ length reader.old) }
{
    let mut all = Vec::new(alloc);
    'suffixes: while all.len() < 4 {
        match suffix(reader)? {
            Some(found) => all.push(found)?,
            None => return Ok(Items::from_vec(all)),
        }
    }
    Ok(Items::from_vec(all))
}

/// Takes the base of a type, with room for this number of nested `UniquePtr`.
#[cycle(type_spec)]
fn base(alloc: Global, reader: &mut TokenReader, room: usize) -> Result<(Base, Place), TreeRefusal>
    requires { room ≤ 4 }
    ensures read { IfOk result (λ b. at b.1 (base room b.0) reader.old reader.new) }
    ensures turns { OnOk result ((e : Ending) → Turns (based room e ∷ []) reader.old (suffixed 4 e ∷ []) reader.new) }
    ensures stops { IfErr result (λ r. (e : Ending) → Stops (based room e ∷ []) reader.old r) }
    ensures less { OnOk result (length reader.new < length reader.old) }
{
    match reader.symbol() {
        Symbol::Word => {
            let QualifiedName { name, inner, place } = name_with_argument(alloc, reader)?;
            Ok((Base::Named(name, inner), place))
        }
        Symbol::UniquePtr if room > 0 => {
            let place = reader.pass();
            reader.take(Symbol::Less)?;
            let inner = type_within(alloc, reader, room - 1)?;
            reader.take(Symbol::Greater)?;
            Ok((Base::Unique(Box::new(alloc, inner)?), place))
        }
        _ => Err(reader.refusal()),
    }
}

/// Takes a type, with room for this number of nested `UniquePtr`.
#[cycle(type_spec)]
fn type_within(
    alloc: Global,
    reader: &mut TokenReader,
    room: usize,
) -> Result<TypeSpec, TreeRefusal>
    requires { room ≤ 4 }
    ensures read { IfOk result (λ spec. type_round spec.nullable (base room spec.base) spec.suffixes spec.place reader.old reader.new) }
    ensures turns { OnOk result ((e : Ending) → Turns (typed room e ∷ []) reader.old (take (last e) ∷ []) reader.new) }
    ensures stops { IfErr result (λ r. (e : Ending) → Stops (typed room e ∷ []) reader.old r) }
    ensures less { OnOk result (length reader.new < length reader.old) }
{
    let nullable = reader.skips(Symbol::Nullable);
    let (base, place) = base(alloc, reader, room)?;
    let suffixes = suffixes(alloc, reader)?;
    Ok(TypeSpec {
        nullable,
        base,
        suffixes,
        place,
    })
}

/// Takes a type.
pub(crate) fn type_spec(alloc: Global, reader: &mut TokenReader) -> Result<TypeSpec, TreeRefusal>
    ensures read { IfOk result (λ spec. type_spec spec reader.old reader.new) }
    ensures turns { OnOk result ((e : Ending) → Turns (typed 4 e ∷ []) reader.old (take (last e) ∷ []) reader.new) }
    ensures stops { IfErr result (λ r. (e : Ending) → Stops (typed 4 e ∷ []) reader.old r) }
    ensures less { OnOk result (length reader.new < length reader.old) }
{
    type_within(alloc, reader, 4)
}
